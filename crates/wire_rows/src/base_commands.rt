//! The commands that a terminus reports.

use pldm_base::{GET_PLDM_COMMANDS, Role, Tid, answer_base};

/// Whether the commands of this type begin with these bits, and are no others.
fn tells(role: Role, pldm_type: u8, first: [u8; 4]) -> bool {
    let version = [pldm_type, 0x00, 0xF0, 0xF1, 0xF2];
    let reply = answer_base(&mut Tid::unassigned(), role, GET_PLDM_COMMANDS, &version);
    let mut wanted = [0; 33];
    wanted[1..5].copy_from_slice(&first);
    reply.as_slice() == wanted.as_slice()
}

static ROWS: [(Role, u8, [u8; 4]); 4] = [
    (Role::Device, 0, [0x36, 0, 0, 0]),
    (Role::Agent, 0, [0x36, 0, 0, 0]),
    (Role::Device, 5, [0x06, 0x00, 0x19, 0x3C]),
    (Role::Agent, 5, [0x00, 0x00, 0xE0, 0x01]),
];

#[test]
fn tells_commands_by_role(rt: HostRuntime) {
    for (role, pldm_type, first) in &ROWS {
        assert!(rt; tells(*role, *pldm_type, *first));
    }
}
