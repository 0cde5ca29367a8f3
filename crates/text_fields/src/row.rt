//! What a table of a file has in its fields: their names, types and ranges, and when they are needed.
//! `docs/BOARD_FILES.md` and `docs/PLAN_FILES.md` say what each means.
ghost use Rattle.std.specs.Prelude.{◌≡◌};
ghost use Rattle.toml.specs.View.{table_view};
ghost use Rattle.text_fields.specs.Faults.{is_needed};

use crate::field::Field;
use crate::lan::LanShape;
use crate::tree::{has_text, in_field, lacks};
use toml::Table;

/// The type of a field, and its range.
#[derive(Clone, Copy)]
pub enum Shape {
    /// A whole number, from the first to the second.
    Number(u32, u32),
    /// Two decimal digits in a byte, the tens in its upper half (BCD).
    Digits,
    /// A byte whose bit 4 is clear: global enables.
    Enables,
    /// Two bytes, in a list.
    Pair,
    /// Five bytes, in a list: boot flags.
    BootFlags,
    /// Six bytes, in a list: thresholds that a sensor with the item's masks can have.
    Thresholds,
    /// A byte with no bits but bits 7 and 6.
    Flags,
    /// A mask of events, each of which the item supports.
    Events,
    /// The settings of a watchdog timer, in a list: use, actions, pre-timeout interval and countdown.
    Watchdog,
    /// At most so many sensor data records, in a list of texts of hexadecimal digits.
    Records(usize),
    /// A table.
    Table,
    /// An array of at most so many tables.
    Tables(usize),
    /// A boolean.
    Flag,
    /// A text.
    Text,
    /// A text: `leave`, `enable` or `disable`.
    Select,
    /// Offsets of events, each from 0 to 11, in a list.
    Offsets,
    /// Bytes, in a list: data of the boot parameter that the item names.
    BootData,
    /// 1 to `MOST_INDEXES` bytes, in a list: indexes of an attribute's possible values, where the item has neither `text` nor `number`.
    FewIndexes,
    /// A text of at most `MOST_TEXT` bytes, where the item has no `number`.
    AttributeText,
    /// A whole number that isn't negative.
    Natural,
    /// A whole number of the size that the item names.
    Sized,
    /// Such a number, not below the item's lower bound.
    Upper,
    /// Such a number within the item's bounds.
    Current,
    /// A text of at most `USER_NAME_SIZE` bytes: the name of a user.
    Name,
    /// 1 to `MOST_USERS` names, in a list of texts, of which the first is empty.
    Names,
    /// A limit of a user's privileges, or `NO_ACCESS`.
    UserLimit,
    /// A text: `non-volatile` or `volatile`.
    Store,
    /// A byte with no bits but bits 5:0, of which 2:0 are at most `MOST_MODE`: who gets in over a channel.
    Access,
    /// Two such bytes, in a list: in the non-volatile store and in the volatile one.
    Accesses,
    /// Two limits of a channel's privileges, in a list, in the same order: each 1 to 5.
    Limits,
    /// What so many users may do, in a list of bytes: bits 6:4, and a limit of a user in bits 3:0.
    UserBytes(usize),
    /// The number of a channel: 0 to 11, or 15.
    ChannelNumber,
    /// The states that each of 1 to 8 fields can be in, in a list of lists of bytes.
    StateLists,
    /// A state for each of the item's fields, in a list: one of those that the field can be in.
    States,
    /// What becomes of each of 1 to 8 fields, in a list: a state, or -1 where it stays.
    StateChanges,
    /// A text of at most 200 bytes.
    ShortText,
    /// A text: `enumeration`, `string` or `integer`.
    AttributeKind,
    /// At most 16 texts of at most 200 bytes, in a list: the possible values of an attribute.
    Values,
    /// Indexes of the item's values, in a list: at least one, and no more than there are values.
    Indexes,
    /// A length of at most `MOST_TEXT` bytes, not below the item's least.
    MostLength,
    /// A text of a length from the item's least to its most.
    SizedText,
    /// A whole number from 0, not below the item's lower bound.
    UpperNatural,
    /// Such a number within the item's bounds, by steps of its increment from the lower one on where that isn't 0.
    Stepped,
    /// What has to do with LAN parameters.
    Lan(LanShape),
}

/// When an item needs a field.
#[derive(Clone, Copy)]
pub enum Need {
    Always,
    Never,
    /// Where its field `select` isn't the text `leave`.
    UnlessLeave,
    /// Where it lacks the fields `text` and `number`.
    WithoutValue,
    /// Where it has one of the fields `callback`, `link` and `messaging`.
    WithBits,
    /// Where it lacks the field `limit`.
    WithoutLimit,
}

impl Need {
    /// Whether the item needs the field.
    pub fn is_needed(&self, item: &Table) -> bool
        ensures { result ≡ is_needed (table_view item.now) self.now }
    {
        match self {
            Need::Always => true,
            Need::Never => false,
            Need::UnlessLeave => !has_text(item, Field::Select, "leave"),
            Need::WithoutValue => lacks(item, Field::Text) && lacks(item, Field::Number),
            Need::WithBits => {
                in_field(item, Field::Callback).is_some()
                    || in_field(item, Field::Link).is_some()
                    || in_field(item, Field::Messaging).is_some()
            }
            Need::WithoutLimit => lacks(item, Field::Limit),
        }
    }
}

/// A field of an item, with what it can hold and when it is needed.
#[derive(Clone, Copy)]
pub struct Row(pub Field, pub Shape, pub Need);

/// A byte.
pub const BYTE: Shape = Shape::Number(0, 255);
