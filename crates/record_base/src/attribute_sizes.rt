//! How much a BIOS attribute can have.
ghost use Rattle.std.specs.Prelude.{◌≡◌};
ghost use Rattle.record_base.specs.AttributeSizes.{most_indexes, most_few, most_name, most_text, least_value, most_value, most_data, before_value, most_sent, most_attributes};

use crate::value::DATA_CAPACITY;

/// How many possible values an enumeration has at most.
pub const MOST_INDEXES: usize = 16;

/// How many bytes a value has at most that isn't a text: the number of an enumeration's indexes, and the indexes.
pub const MOST_FEW: usize = 1 + MOST_INDEXES;

/// How many bytes a name or a possible value has at most.
pub const MOST_NAME: usize = 200;

/// How many bytes the text of a string has at most.
pub const MOST_TEXT: usize = 1024;

/// How many bytes the value of an attribute has at least: the number of indexes and one index, or the length of a text.
pub const LEAST_VALUE: usize = 2;

/// How many bytes the value of an attribute has at most: the length of a text, and the text.
pub const MOST_VALUE: usize = 2 + MOST_TEXT;

/// How many indexes a value counts by its first byte at most.
pub const MOST_COUNTED: usize = 255;

/// How many bytes a text has at most whose length stands in two bytes.
pub const LONGEST_TEXT: usize = 65535;

/// How many bytes stand before the value in the data of a Set or of a Get reply: handle, flag, attribute and type.
pub const BEFORE_VALUE: usize = 8;

/// How many bytes the value of a Set has at most.
pub const MOST_SENT: usize = DATA_CAPACITY - BEFORE_VALUE;

/// How many attributes a board has at most.
pub const MOST_ATTRIBUTES: usize = 64;

/// Each constant is the definition of its name.
pub fn attribute_sizes_are_the_definitions()
    ensures indexes { MOST_INDEXES ≡ most_indexes }
    ensures few { MOST_FEW ≡ most_few }
    ensures name { MOST_NAME ≡ most_name }
    ensures text { MOST_TEXT ≡ most_text }
    ensures least { LEAST_VALUE ≡ least_value }
    ensures most { MOST_VALUE ≡ most_value }
    ensures data { DATA_CAPACITY ≡ most_data }
    ensures before { BEFORE_VALUE ≡ before_value }
    ensures sent { MOST_SENT ≡ most_sent }
    ensures attributes { MOST_ATTRIBUTES ≡ most_attributes }
{}
