//! The numbers of control messages (DSP0236, section 12).

ghost use Rattle.std.specs.Prelude.{◌≡◌};
ghost use Rattle.mctp_ctl.specs.Codes.{command_of};

/// The message type of a control message: the first byte of its body.
pub const CONTROL: u8 = 0x00;

/// The control commands that an endpoint answers (DSP0236, Table 12).
#[derive(Clone, Copy, PartialEq, Eq)]
pub enum ControlCommand {
    /// Set Endpoint ID, 0x01: offers an endpoint identifier.
    SetEndpointId,
    /// Get Endpoint ID, 0x02.
    GetEndpointId,
    /// Get Endpoint UUID, 0x03.
    GetEndpointUuid,
    /// Get MCTP Version Support, 0x04: the versions of one message type.
    GetMctpVersionSupport,
    /// Get Message Type Support, 0x05: the message types other than control messages.
    GetMessageTypeSupport,
}

impl ControlCommand {
    /// Returns the command with this code, if an endpoint answers it.
    pub fn from_code(code: u8) -> Option<ControlCommand>
        ensures { result ≡ command_of code }
    {
        match code {
            0x01 => Some(ControlCommand::SetEndpointId),
            0x02 => Some(ControlCommand::GetEndpointId),
            0x03 => Some(ControlCommand::GetEndpointUuid),
            0x04 => Some(ControlCommand::GetMctpVersionSupport),
            0x05 => Some(ControlCommand::GetMessageTypeSupport),
            _ => None,
        }
    }
}

/// The request was carried out.
pub const SUCCESS: u8 = 0x00;

/// A field of the request holds an invalid value.
pub const ERROR_INVALID_DATA: u8 = 0x02;

/// The request is too short or too long.
pub const ERROR_INVALID_LENGTH: u8 = 0x03;

/// The endpoint doesn't know the command.
pub const ERROR_UNSUPPORTED_CMD: u8 = 0x05;

/// Get MCTP Version Support's own code: the endpoint doesn't know the message type.
pub const MESSAGE_TYPE_NOT_SUPPORTED: u8 = 0x80;
