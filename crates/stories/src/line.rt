//! The first words of lines.

/// What a line begins with: what comes to the board or to a port of its.
#[derive(Clone, Copy)]
pub enum Word {
    /// A line of the board's file.
    Board,
    /// A request comes to the board itself.
    Ipmi,
    Pldm,
    /// Requests come from this address or endpoint from now on.
    From,
    /// What the store keeps of the record that a Get names.
    Kept,
    /// Whether a request is a setting one.
    Marked,
    /// A sensor gives a reading.
    Reads,
    /// Tenths of a second go by.
    Tick,
    /// The chassis bits become these.
    Chassis,
    /// A Set is carried out and undone.
    Change,
    /// What undoes a Set, by what a Get replied.
    Undo,
    /// A port hears a frame: the name of its bus.
    Frame,
    /// A port hears a frame that is cut off, at each place.
    Cuts,
    /// A port hears a frame with each other byte at each place.
    Changed,
    /// A port forgets a requester.
    Idle,
    /// A request that a port hears, and that is dropped.
    Dropped,
    /// One of which the port is told.
    Told,
    /// A request comes to windows.
    Window,
}

impl Word {
    /// The word that is written so.
    pub fn of(word: &str) -> Option<Word> {
        Some(match word {
            "board" => Word::Board,
            "ipmi" => Word::Ipmi,
            "pldm" => Word::Pldm,
            "from" => Word::From,
            "kept" => Word::Kept,
            "marked" => Word::Marked,
            "reads" => Word::Reads,
            "tick" => Word::Tick,
            "chassis" => Word::Chassis,
            "change" => Word::Change,
            "undo" => Word::Undo,
            "ipmb" | "smbus" => Word::Frame,
            "cuts" => Word::Cuts,
            "changed" => Word::Changed,
            "idle" => Word::Idle,
            "dropped" => Word::Dropped,
            "told" => Word::Told,
            "window" => Word::Window,
            _ => return None,
        })
    }
}
