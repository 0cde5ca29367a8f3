//! Why a text is no board file.
use std::fmt;
use text_fields::Field;

/// An item of a board file: a table of the file.
#[derive(Clone, Copy, Debug)]
pub enum Item {
    /// The file's own table.
    Top,
    /// `[device]`.
    Device,
    /// The `[[sensor]]` of this place in the file, from 0.
    Sensor(usize),
    /// The `[[channel]]` of this place in the file, from 0.
    Channel(usize),
    /// The `[[attribute]]` of this place in the file, from 0.
    Attribute(usize),
    /// The `[[state]]` of this place in the file, from 0.
    State(usize),
    /// The `[[numeric]]` of this place in the file, from 0.
    Numeric(usize),
    /// The `[[lan]]` of this place in the file, from 0.
    Lan(usize),
}

/// A field of an item.
#[derive(Clone, Copy, Debug)]
pub struct Place {
    pub item: Item,
    pub field: Field,
}

/// Why a text is no board file.
#[derive(Clone, Copy, Debug)]
pub enum FileFault {
    /// Memory ran out.
    Memory,
    /// The text isn't TOML 1.1.
    Text,
    /// The item lacks the field.
    Missing(Place),
    /// The field's value is of another type.
    WrongType(Place),
    /// The item can't have the field's value.
    Range(Place),
    /// An item before it has the number too.
    Twice(Place),
}

impl fmt::Display for Item {
    ghost use Rattle.std.specs.Prelude.{Some};
    ghost use Rattle.text_board.specs.Names.{item_name};

    ghost output = { λ item. Some (item_name item) };

    fn fmt<W: fmt::Write>(&self, f: &mut fmt::Formatter<W>) -> fmt::Result {
        match self {
            Item::Top => f.write_str("top"),
            Item::Device => f.write_str("device"),
            Item::Sensor(place) => write!(f, "sensor {place}"),
            Item::Channel(place) => write!(f, "channel {place}"),
            Item::Attribute(place) => write!(f, "attribute {place}"),
            Item::State(place) => write!(f, "state {place}"),
            Item::Numeric(place) => write!(f, "numeric {place}"),
            Item::Lan(place) => write!(f, "lan {place}"),
        }
    }
}

impl fmt::Display for Place {
    ghost use Rattle.std.specs.Prelude.{Some};
    ghost use Rattle.text_board.specs.Names.{place_name};

    ghost output = { λ place. Some (place_name place) };

    fn fmt<W: fmt::Write>(&self, f: &mut fmt::Formatter<W>) -> fmt::Result {
        write!(f, "{} {}", self.item, self.field)
    }
}

impl fmt::Display for FileFault {
    ghost use Rattle.std.specs.Prelude.{Some};
    ghost use Rattle.text_board.specs.Names.{fault_name};

    ghost output = { λ fault. Some (fault_name fault) };

    fn fmt<W: fmt::Write>(&self, f: &mut fmt::Formatter<W>) -> fmt::Result {
        match self {
            FileFault::Memory => f.write_str("Memory"),
            FileFault::Text => f.write_str("Text"),
            FileFault::Missing(place) => write!(f, "Missing {place}"),
            FileFault::WrongType(place) => write!(f, "WrongType {place}"),
            FileFault::Range(place) => write!(f, "Range {place}"),
            FileFault::Twice(place) => write!(f, "Twice {place}"),
        }
    }
}
