//! The state effecters of a board file.
ghost use Rattle.std.specs.Prelude.{◌≡◌, [], true, IfOk, IfErr, map};
ghost use Rattle.std.specs.List.{list_all, AllZip};
ghost use Rattle.toml.specs.View.{view, table_view};
ghost use Rattle.text_fields.specs.Trees.{IsNaturalIn, members_in};
ghost use Rattle.text_fields.specs.Ranges.{is_state, is_state_list, can_be, are_present};
ghost use Rattle.text_board.specs.Faults.{state_faults, IsFirstFault};
ghost use Rattle.text_board.specs.Holds.{IsFieldIn, IsPresentIn, HoldsState, IsStateIn};

use crate::check::checked;
use crate::effecters::ENABLED;
use crate::fault::{FileFault, Item, Place};
use crate::items::{ArrayReader, distinct_items};
use crate::tables::{STATE, TOP};
use cfg_records::Items;
use record_base::{StateEffecter, StateEffecters, StateField};
use std::alloc::Global;
use text_fields::tree::{members_of, natural};
use text_fields::{Checked, Field};
use toml::{Table, Value};

/// The state that the value is.
fn state(value: &Value) -> u8
    requires { is_state (view value.now) ≡ true }
    ensures { IsNaturalIn (view value.now) result }
{
    natural(value).unwrap() as u8
}

/// The states that these values are.
fn states_of(alloc: Global, values: &[Value]) -> Result<Vec<u8>, FileFault>
    requires { list_all is_state (map view values.now) ≡ true }
    ensures held { IfOk result (λ states. AllZip IsNaturalIn (map view values.now) states.items) }
    ensures err { IfErr result (λ why. why ≡ FileFault.Memory) }
{
    let mut states = Vec::new(alloc);
    for value in values {
        match states.push(state(value)) {
            Ok(()) => {}
            Err(_) => return Err(FileFault::Memory),
        }
    }
    Ok(states)
}

/// The field that can be in the listed states, and is in this one.
fn field_of(alloc: Global, states: &Value, current: &Value) -> Result<StateField, FileFault>
    requires states { is_state_list (view states.now) ≡ true }
    requires current { can_be (view states.now) (view current.now) ≡ true }
    ensures held { IfOk result (IsFieldIn (view states.now)) }
    ensures current { IfOk result (IsPresentIn (view current.now)) }
    ensures err { IfErr result (λ why. why ≡ FileFault.Memory) }
{
    let allowed = states_of(alloc, members_of(states))?;
    Ok(StateField::new(Items::new(allowed), state(current)).unwrap())
}

/// The fields that can be in the states of these lists, each in one of its own.
fn fields_of(alloc: Global, lists: &[Value], states: &[Value]) -> Result<Vec<StateField>, FileFault>
    requires lists { list_all is_state_list (map view lists.now) ≡ true }
    requires current { are_present (map view lists.now) (map view states.now) ≡ true }
    ensures held { IfOk result (λ fields. AllZip IsFieldIn (map view lists.now) fields.items) }
    ensures current { IfOk result (λ fields.
        AllZip IsPresentIn (map view states.now) fields.items) }
    ensures err { IfErr result (λ why. why ≡ FileFault.Memory) }
{
    let mut fields = Vec::new(alloc);
    for (place, list) in lists.iter().enumerate() {
        let field = field_of(alloc, list, &states[place])?;
        match fields.push(field) {
            Ok(()) => {}
            Err(_) => return Err(FileFault::Memory),
        }
    }
    Ok(fields)
}

/// The state effecter that the table is.
fn state_effecter(alloc: Global, item: &Checked<'_>) -> Result<StateEffecter, FileFault>
    requires { item.now.rows.now ≡ STATE }
    ensures held { IfOk result (HoldsState (table_view item.now.table.now)) }
    ensures err { IfErr result (λ why. why ≡ FileFault.Memory) }
{
    let id = item.word(Field::Id);
    let enabled = item.byte(Field::Operational) == ENABLED;
    let lists = members_of(item.value(Field::States));
    let fields = fields_of(alloc, lists, members_of(item.value(Field::Current)))?;
    Ok(StateEffecter::new(id, enabled, fields).unwrap())
}

/// How state effecters are read.
#[derive(Drop)]
struct StateReader;

impl ArrayReader for StateReader {
    type Entry = StateEffecter;

    ghost use Rattle.text_fields.specs.declared.field.Field.TheVariants as field;
    ghost use Rattle.text_board.specs.declared.fault.Item.TheVariants as item;
    ghost use Rattle.text_board.specs.declared.tables.TheConstants.{STATE};

    ghost item_at = { item.State };

    ghost rows = { λ _ _. STATE };

    ghost named = { field.Id };

    ghost holds = { HoldsState };

    ghost numbered = { λ tree effecter held. held.numbered };

    fn number_place(place: usize) -> Place {
        Place {
            item: Item::State(place),
            field: Field::Id,
        }
    }

    fn read(&self, alloc: Global, place: usize, table: &Table) -> Result<StateEffecter, FileFault> {
        let item = checked(Item::State(place), &STATE, table)?;
        state_effecter(alloc, &item)
    }
}

/// The state effecters of the file.
pub fn state_effecters(alloc: Global, top: &Checked<'_>) -> Result<StateEffecters, FileFault>
    requires { top.now.rows.now ≡ TOP }
    ensures sound { IfOk result (λ _.
        state_faults (members_in Field.State (table_view top.now.table.now)) ≡ []) }
    ensures held { IfOk result (λ effecters.
        AllZip IsStateIn (members_in Field.State (table_view top.now.table.now)) effecters.items) }
    ensures err { IfErr result (IsFirstFault
        (state_faults (members_in Field.State (table_view top.now.table.now)))) }
{
    distinct_items(&StateReader, alloc, top.tables(Field::State))
}
