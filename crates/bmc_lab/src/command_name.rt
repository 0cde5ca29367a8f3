//! What the controller's commands are called in their standards.

/// What a network function is called (IPMI 2.0, table 5-1), by the number of its requests.
pub(crate) fn net_fn_name(net_fn: u8) -> &'static str {
    match net_fn {
        0x00 => "chassis",
        0x02 => "bridge",
        0x04 => "sensor/event",
        0x06 => "app",
        0x08 => "firmware",
        0x0A => "storage",
        0x0C => "transport",
        0x2C => "group extension",
        0x2E => "OEM/group",
        _ => "none of IPMI's",
    }
}

/// What the controller's command of this network function and number is called (IPMI 2.0, appendix G).
pub(crate) fn ipmi_command(net_fn: u8, command: u8) -> Option<&'static str> {
    match net_fn {
        0x00 => chassis_command(command),
        0x04 => sensor_command(command),
        0x06 => app_command(command),
        0x0A => storage_command(command),
        0x0C => transport_command(command),
        _ => None,
    }
}

/// What a chassis command is called.
fn chassis_command(command: u8) -> Option<&'static str> {
    Some(match command {
        0x01 => "Get Chassis Status",
        0x06 => "Set Power Restore Policy",
        0x08 => "Set System Boot Options",
        0x09 => "Get System Boot Options",
        _ => return None,
    })
}

/// What a command of sensors and events is called.
fn sensor_command(command: u8) -> Option<&'static str> {
    Some(match command {
        0x24 => "Set Sensor Hysteresis",
        0x25 => "Get Sensor Hysteresis",
        0x26 => "Set Sensor Thresholds",
        0x27 => "Get Sensor Thresholds",
        0x28 => "Set Sensor Event Enable",
        0x29 => "Get Sensor Event Enable",
        0x2D => "Get Sensor Reading",
        _ => return None,
    })
}

/// What an application command is called.
fn app_command(command: u8) -> Option<&'static str> {
    Some(match command {
        0x01 => "Get Device ID",
        0x04 => "Get Self Test Results",
        0x22 => "Reset Watchdog Timer",
        0x24 => "Set Watchdog Timer",
        0x25 => "Get Watchdog Timer",
        0x2E => "Set BMC Global Enables",
        0x2F => "Get BMC Global Enables",
        0x40 => "Set Channel Access",
        0x41 => "Get Channel Access",
        0x43 => "Set User Access",
        0x44 => "Get User Access",
        0x45 => "Set User Name",
        0x46 => "Get User Name",
        0x47 => "Set User Password",
        _ => return None,
    })
}

/// What a storage command is called.
fn storage_command(command: u8) -> Option<&'static str> {
    Some(match command {
        0x20 => "Get SDR Repository Info",
        0x22 => "Reserve SDR Repository",
        0x23 => "Get SDR",
        0x40 => "Get SEL Info",
        0x42 => "Reserve SEL",
        0x43 => "Get SEL Entry",
        0x44 => "Add SEL Entry",
        0x47 => "Clear SEL",
        0x48 => "Get SEL Time",
        0x49 => "Set SEL Time",
        _ => return None,
    })
}

/// What a transport command is called.
fn transport_command(command: u8) -> Option<&'static str> {
    Some(match command {
        0x01 => "Set LAN Configuration Parameters",
        0x02 => "Get LAN Configuration Parameters",
        _ => return None,
    })
}

/// What the controller's command of this PLDM type and number is called (DSP0240, DSP0248, DSP0247).
pub(crate) fn pldm_command(kind: u8, command: u8) -> Option<&'static str> {
    Some(match (kind, command) {
        (0, 0x02) => "GetTID",
        (0, 0x04) => "GetPLDMTypes",
        (2, 0x31) => "SetNumericEffecterValue",
        (2, 0x32) => "GetNumericEffecterValue",
        (2, 0x39) => "SetStateEffecterStates",
        (2, 0x3A) => "GetStateEffecterStates",
        (3, 0x01) => "GetBIOSTable",
        (3, 0x07) => "SetBIOSAttributeCurrentValue",
        (3, 0x08) => "GetBIOSAttributeCurrentValueByHandle",
        _ => return None,
    })
}

/// What the controller's command of MCTP control is called (DSP0236).
pub(crate) fn control_command(command: u8) -> Option<&'static str> {
    Some(match command {
        0x01 => "Set Endpoint ID",
        0x02 => "Get Endpoint ID",
        0x05 => "Get Message Type Support",
        _ => return None,
    })
}
