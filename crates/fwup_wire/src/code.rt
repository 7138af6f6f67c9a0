//! The numbers that DSP0267 1.0 defines: commands, completion codes, text types, response codes and
//! results.

/// The commands of PLDM type 5 (DSP0267 1.0, "PLDM for firmware update command codes").
pub mod command {
    /// Requests a device's descriptors.
    pub const QUERY_DEVICE_IDENTIFIERS: u8 = 0x01;
    /// Requests a device's components, and the versions of their images.
    pub const GET_FIRMWARE_PARAMETERS: u8 = 0x02;
    /// Begins an update.
    pub const REQUEST_UPDATE: u8 = 0x10;
    /// Passes one component of the update to a device.
    pub const PASS_COMPONENT_TABLE: u8 = 0x13;
    /// Begins the update of one component.
    pub const UPDATE_COMPONENT: u8 = 0x14;
    /// Requests a piece of the component's image from the agent.
    pub const REQUEST_FIRMWARE_DATA: u8 = 0x15;
    /// Reports to the agent that the image was transferred.
    pub const TRANSFER_COMPLETE: u8 = 0x16;
    /// Reports to the agent that the image was verified.
    pub const VERIFY_COMPLETE: u8 = 0x17;
    /// Reports to the agent that the image was applied.
    pub const APPLY_COMPLETE: u8 = 0x18;
    /// Makes the applied images active.
    pub const ACTIVATE_FIRMWARE: u8 = 0x1A;
    /// Requests a device's state.
    pub const GET_STATUS: u8 = 0x1B;
    /// Ends the update of the component.
    pub const CANCEL_UPDATE_COMPONENT: u8 = 0x1C;
    /// Ends the update.
    pub const CANCEL_UPDATE: u8 = 0x1D;
}

/// The completion codes of PLDM type 5 (DSP0267 1.0, "PLDM for firmware update completion codes").
/// Those that every PLDM type shares are in `pldm_base::completion`.
pub mod completion {
    /// The device isn't in an update.
    pub const NOT_IN_UPDATE_MODE: u8 = 0x80;
    /// The device is in an update already.
    pub const ALREADY_IN_UPDATE_MODE: u8 = 0x81;
    /// The requested data lie outside the image.
    pub const DATA_OUT_OF_RANGE: u8 = 0x82;
    /// The requested length isn't allowed.
    pub const INVALID_TRANSFER_LENGTH: u8 = 0x83;
    /// The command doesn't fit the state.
    pub const INVALID_STATE_FOR_COMMAND: u8 = 0x84;
    /// Not every component was applied.
    pub const INCOMPLETE_UPDATE: u8 = 0x85;
    /// The agent didn't expect this command.
    pub const COMMAND_NOT_EXPECTED: u8 = 0x88;
    /// The data must be requested again.
    pub const RETRY_REQUEST_FW_DATA: u8 = 0x89;
    /// There is nothing to activate.
    pub const ACTIVATION_NOT_REQUIRED: u8 = 0x8B;
}

/// How a text is encoded (DSP0267 1.0, "String type values"). A codec takes any type.
pub mod text_type {
    /// The encoding is unknown, as of an absent text.
    pub const UNKNOWN: u8 = 0;
    /// ASCII.
    pub const ASCII: u8 = 1;
    /// UTF-8.
    pub const UTF_8: u8 = 2;
    /// UTF-16 with a byte order mark.
    pub const UTF_16: u8 = 3;
    /// UTF-16, little-endian.
    pub const UTF_16LE: u8 = 4;
    /// UTF-16, big-endian.
    pub const UTF_16BE: u8 = 5;
}

/// A device's responses about a component, in answer to PassComponentTable and UpdateComponent
/// (DSP0267 1.0, "ComponentResponse", "ComponentCompatibilityResponse" and their codes).
pub mod response {
    /// The component can be updated.
    pub const CAN_BE_UPDATED: u8 = 0;
    /// The component can't be updated, or only with a restriction; the code gives the reason.
    pub const CANNOT_BE_UPDATED: u8 = 1;

    /// Code: there is no restriction.
    pub const NO_RESTRICTION: u8 = 0x00;
    /// Code: the comparison stamp is that of the active image.
    pub const COMPARISON_STAMP_IDENTICAL: u8 = 0x01;
    /// Code: the comparison stamp is lower than that of the active image.
    pub const COMPARISON_STAMP_LOWER: u8 = 0x02;
    /// Code: the device has no such component.
    pub const NOT_SUPPORTED: u8 = 0x06;
}
