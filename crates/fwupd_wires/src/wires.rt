//! What joins a node to its peers: sockets or a serial line.

use crate::agent_sockets::AgentSockets;
use crate::device_sockets::DeviceSockets;
use crate::fronted_line::FrontedLine;
use crate::port::Port;
use crate::serial_line::SerialLine;
use fw_process::Line;
use mctp_wire::RawPacket;

/// What joins a device to its agent.
#[derive(Drop)]
pub enum DeviceWire {
    /// A socket to which the agent connects.
    Sockets(FrontedLine<DeviceSockets>),
    /// A serial line.
    Serial(SerialLine<Port>),
}

impl Line for DeviceWire {
    fn begin_round(&mut self, unit: u32) {
        match self {
            DeviceWire::Sockets(line) => line.begin_round(unit),
            DeviceWire::Serial(line) => line.begin_round(unit),
        }
    }

    fn receive(&mut self, packet: &mut RawPacket) -> Option<u32> {
        match self {
            DeviceWire::Sockets(line) => line.receive(packet),
            DeviceWire::Serial(line) => line.receive(packet),
        }
    }

    fn send(&mut self, unit: u32, packet: &RawPacket) {
        match self {
            DeviceWire::Sockets(line) => line.send(unit, packet),
            DeviceWire::Serial(line) => line.send(unit, packet),
        }
    }
}

/// What joins the agent to its devices.
#[derive(Drop)]
pub enum AgentWire<'a> {
    /// The sockets of the devices.
    Sockets(FrontedLine<AgentSockets<'a>>),
    /// A serial line.
    Serial(SerialLine<Port>),
}

impl<'a> Line for AgentWire<'a> {
    fn begin_round(&mut self, unit: u32) {
        match self {
            AgentWire::Sockets(line) => line.begin_round(unit),
            AgentWire::Serial(line) => line.begin_round(unit),
        }
    }

    fn receive(&mut self, packet: &mut RawPacket) -> Option<u32> {
        match self {
            AgentWire::Sockets(line) => line.receive(packet),
            AgentWire::Serial(line) => line.receive(packet),
        }
    }

    fn send(&mut self, unit: u32, packet: &RawPacket) {
        match self {
            AgentWire::Sockets(line) => line.send(unit, packet),
            AgentWire::Serial(line) => line.send(unit, packet),
        }
    }
}
