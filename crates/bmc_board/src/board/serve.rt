//! What a board does with requests.
ghost use Rattle.std.specs.Prelude.{◌≡◌, ◌≢◌, ◌+◌, ◌≤◌, IfOk, [], length};
ghost use Rattle.two_wire.specs.Codes.{node_busy, pldm_not_ready};
ghost use Rattle.cfg_records.specs.Records.{records_of};
ghost use Rattle.cfg_records.specs.Boards.{pairs_of};
ghost use Rattle.record_base.specs.Meaning.{room_for};
ghost use Rattle.bios_attr.specs.Tables.{AreTables};
ghost use Rattle.bmc_board.specs.State.{opening};
ghost use Rattle.bmc_board.specs.Gives.{AppendsReply};
ghost use Rattle.bmc_board.specs.Replies.{done};
ghost use Rattle.bmc_board.specs.Sensing.{value_at};
ghost use Rattle.bmc_board.specs.declared.board.Kept.TheVariants.{Stale};

use crate::activity::Activity;
use crate::board::bios::{RecordValues, show_part, table_asked};
use crate::board::{Board, Kept};
use crate::command::Command;
use crate::live::{
    LiveCommand, NO_ERROR, PLDM_TYPES, already_in_progress, device_data, progress_data,
};
use crate::reply::answered;
use crate::request::{read_request, requester};
use crate::storage::{
    add_entry, clear, part_in, sdr_info, sel_info, show_entry, show_sdr, time_in,
};
use bios_attr::{BiosTable, Tables};
use cfg_records::{
    Answered, Asked, BoardFile, CommandReader, Key, Op, RecordKind, Store, Value, byte_at,
};
use record_base::{AccessStore, ChannelNumber, SetChannelAccess, StoredAccess, UserNumber};
use record_kinds::{
    KeptRecords, PlainKind, Setup, of_each_plain_kind, place_to_make, unknown_code,
};
use sensor_recs::readings::reading_data;
use std::alloc::{AllocError, Global};
use two_wire::{Buffer, Bytes, Code, code};
use user_chan::channel_request::{ChannelRequest, channel_request_in, stored_in};
use user_chan::password::{PasswordChange, change_of, set_enabled};
use watch_boot::boot_request::{BootRequest, BootShown, boot_request_in, boot_shown_in};
use watch_boot::watchdog;

/// The change of a record of the kind.
macro_rules! changed {
    ([$board:expr, $any:expr, $body:expr, $to:expr] $($kind:ident $limits:ty {$($key:tt)*})*) => {
        match $any {
            $(PlainKind::$kind => $board.carry_out::<$limits, B>($body, $to),)*
        }
    };
}

/// The value of the key's record; no bytes where there is none.
pub(super) fn value_at<'a, S: Store>(store: &'a S, key: &Key) -> &'a [u8]
    ensures { result.now ≡ value_at (S.records store.now) key.now }
{
    match store.get(key) {
        Some(value) => value,
        None => &[],
    }
}

/// Appends the data of a reply that is always given.
pub(super) fn show<B: Buffer>(shown: &[u8], to: &mut B) -> Result<(), Code>
    requires { length (B.bytes to.old) + length shown.now ≤ B.capacity }
    ensures { AppendsReply B.bytes result to.old to.new (done shown.now) }
{
    to.extend_from_slice(shown);
    Ok(())
}

/// Says that the table of values is stale. What says so already isn't written: threads that share the board read it from their own caches.
pub(super) fn outdate(kept: &mut Kept)
    ensures { kept.new ≡ Stale }
{
    if *kept == Kept::Current {
        *kept = Kept::Stale;
    }
}

/// What a board of this file keeps in memory beside its set-up and its records.
#[derive(Drop)]
struct Parts {
    activity: Activity,
    tables: Tables,
    made_over_pldm: Box<Value>,
    made_over_ipmi: Box<Value>,
}

/// The parts of a board, as they begin. The tables take memory between the two places, which so lie apart.
fn opened_parts(alloc: Global, file: &BoardFile) -> Result<Parts, AllocError>
    ensures activity { IfOk result (λ parts. parts.activity ≡ opening file.now) }
    ensures tables { IfOk result (λ parts. AreTables file.now.attributes.items parts.tables) }
{
    Ok(Parts {
        made_over_pldm: place_to_make(alloc)?,
        tables: Tables::open(alloc, &file.attributes)?,
        made_over_ipmi: place_to_make(alloc)?,
        activity: Activity::opening(alloc, file)?,
    })
}

impl<S: Store> Board<S> {
    ghost use Rattle.bmc_board.specs.State.{opened, state_of};
    ghost use Rattle.bmc_board.specs.Live.{progress_answer, leave_answer, longest_live_reply, longest_live};
    ghost use Rattle.bmc_board.specs.Serves.{given_by, serve_by, live_by, reading_by, table_by, part_by, ReplyFits, AnswersCode, ServesRequest, ServesSilently, IsRefusal};
    ghost use Rattle.bmc_board.specs.declared.board.Kept.TheVariants as kept;
    ghost use Rattle.bios_attr.specs.declared.bios_table.BiosTable.TheVariants as bios_table;
    ghost use Rattle.bmc_board.specs.BiosTables.{longest_part};
    ghost use Rattle.bmc_board.specs.Row.{Row};
    ghost use Rattle.bmc_board.specs.Request as request;
    ghost use Rattle.bmc_board.specs.Request.{asked_of, live_asked, set_read, plain_set};
    ghost use Rattle.bmc_board.specs.BootCommands.{boot_set_asked, boot_get_asked};
    ghost use Rattle.bmc_board.specs.ChannelCommands.{channel_set_asked};
    ghost use Rattle.std.specs.Prelude.{Ok};

    /// A board of this file over this store of its records.
    pub fn open(alloc: Global, file: BoardFile, store: S) -> Result<Self, AllocError>
        requires { S.records store ≡ records_of (pairs_of file) }
        ensures setup { IfOk result (λ board. board.setup ≡ file) }
        ensures state { IfOk result (λ board. state_of board ≡ opened file) }
    {
        match opened_parts(alloc, &file) {
            Ok(parts) => match Setup::new(alloc, file) {
                Ok(setup) => Ok(Board {
                    setup,
                    activity: parts.activity,
                    records: KeptRecords::over(store, parts.made_over_pldm, parts.made_over_ipmi),
                    tables: parts.tables,
                    kept: Kept::Stale,
                }),
                Err(why) => {
                    drop(parts);
                    drop(store);
                    Err(why)
                }
            },
            Err(why) => {
                drop(file);
                drop(store);
                Err(why)
            }
        }
    }

    /// Where its records are.
    pub fn store(&self) -> &S
        ensures { result.now ≡ self.now.records.store }
    {
        &self.records.store
    }

    /// Starts the watchdog timer, where it was set once.
    fn reset_watchdog(&mut self) -> Result<(), Code>
        ensures answer { AnswersCode result (live_by self.old LiveCommand.ResetWatchdog []).0 }
        ensures left { self.new.activity ≡
            (live_by self.old LiveCommand.ResetWatchdog []).1 }
        ensures records { S.records self.new.records.store ≡ S.records self.old.records.store }
        ensures setup { self.new.setup ≡ self.old.setup }
    {
        let Some(value) = self.records.store.get(&Key::Watchdog) else {
            return Err(unknown_code(&self.setup, &Key::Watchdog));
        };
        match watchdog::live_after_reset(value, &self.activity.live) {
            Some(live) => {
                self.activity.live = live;
                Ok(())
            }
            None => Err(code::UNINITIALIZED_WATCHDOG),
        }
    }

    /// Sets parameter 0 of the boot options, where a byte is given for it.
    fn set_boot_progress(&mut self, byte: Option<u8>) -> Result<(), Code>
        ensures answer { AnswersCode result (progress_answer byte self.old.activity).0 }
        ensures left { self.new.activity ≡ (progress_answer byte self.old.activity).1 }
        ensures records { S.records self.new.records.store ≡ S.records self.old.records.store }
        ensures setup { self.new.setup ≡ self.old.setup }
    {
        let Some(byte) = byte else {
            return Ok(());
        };
        match byte {
            0 => self.activity.boot_progress = false,
            1 if self.activity.boot_progress => return Err(already_in_progress()),
            1 => self.activity.boot_progress = true,
            _ => return Err(code::INVALID_DATA_FIELD),
        }
        Ok(())
    }

    /// Whether a channel has an access that could be set.
    fn leave_channel(&self, channel: ChannelNumber) -> Result<(), Code>
        ensures { AnswersCode result (leave_answer self.now.setup channel) }
    {
        if self.setup.channel(channel).is_some() {
            return Ok(());
        }
        let key = Key::ChannelAccess(StoredAccess {
            channel,
            store: AccessStore::Neither,
        });
        Err(unknown_code(&self.setup, &key))
    }

    /// Carries out Set User Password. An unknown user is refused before the size of the password.
    fn set_password(&mut self, body: &[u8]) -> Result<(), Code>
        ensures answer { AnswersCode result
            (live_by self.old LiveCommand.SetUserPassword body.now).0 }
        ensures left { self.new.activity ≡
            (live_by self.old LiveCommand.SetUserPassword body.now).1 }
        ensures records { S.records self.new.records.store ≡ S.records self.old.records.store }
        ensures setup { self.new.setup ≡ self.old.setup }
    {
        let user = UserNumber::of(byte_at(body, 0));
        if self.setup.user(user).is_none() {
            return Err(code::INVALID_DATA_FIELD);
        }
        match change_of(body)? {
            PasswordChange::Disable => set_enabled(&mut self.activity.live, user, false),
            PasswordChange::Enable => set_enabled(&mut self.activity.live, user, true),
            PasswordChange::Set(password) => self.activity.passwords.put(user, password),
            PasswordChange::Test(password) => {
                return self.activity.passwords.test(user, &password);
            }
        }
        Ok(())
    }

    /// Appends what Get Sensor Reading replies of the sensor of this number.
    fn show_reading<B: Buffer>(&self, sensor: u8, to: &mut B) -> Result<(), Code>
        requires room { length (B.bytes to.old) + longest_live_reply ≤ B.capacity }
        ensures { AppendsReply B.bytes result to.old to.new
            (reading_by self.now sensor) }
    {
        let key = Key::EventEnable(sensor);
        if self.setup.sensor(sensor).is_none() {
            return Err(unknown_code(&self.setup, &key));
        }
        let events = value_at(&self.records.store, &key);
        show(
            &reading_data(events, &self.activity.readings.last(sensor)),
            to,
        )
    }

    /// Makes the table of values that of the values as they stand, where a record was written since.
    fn keep_values(&mut self)
        ensures kept { self.new.kept ≡ kept.Current }
        ensures activity { self.new.activity ≡ self.old.activity }
        ensures store { self.new.records.store ≡ self.old.records.store }
        ensures setup { self.new.setup ≡ self.old.setup }
    {
        if self.kept == Kept::Stale {
            self.tables.show(&RecordValues {
                store: &self.records.store,
            });
            self.kept = Kept::Current;
        }
    }

    /// Appends the part of this table that the request asks for. The table of values is kept.
    fn show_kept<B: Buffer>(&self, table: BiosTable, body: &[u8], to: &mut B) -> Result<(), Code>
        requires room { length (B.bytes to.old) + longest_part ≤ B.capacity }
        requires kept { table ≡ bios_table.Values → self.now.kept ≡ kept.Current }
        ensures { AppendsReply B.bytes result to.old to.new
            (part_by self.now table body.now) }
    {
        show_part(body, self.tables.table(table), to)
    }

    /// Appends a part of a table of the attributes, with their values as they stand.
    #[inline(never)]
    fn show_table<B: Buffer>(&mut self, body: &[u8], to: &mut B) -> Result<(), Code>
        requires room { length (B.bytes to.old) + longest_part ≤ B.capacity }
        ensures answer { AppendsReply B.bytes result to.old to.new
            (table_by self.old body.now) }
        ensures activity { self.new.activity ≡ self.old.activity }
        ensures store { self.new.records.store ≡ self.old.records.store }
        ensures setup { self.new.setup ≡ self.old.setup }
    {
        let table = table_asked(self.setup.attributes(), byte_at(body, 5))?;
        if table == BiosTable::Values {
            self.keep_values();
        }
        self.show_kept(table, body, to)
    }

    /// Carries out a live command with this data, and appends the data of the reply.
    #[tactic(auto, using(crate::proofs::LiveReplies::as_long))]
    pub(super) fn live<B: Buffer>(
        &mut self,
        command: LiveCommand,
        body: &[u8],
        to: &mut B,
    ) -> Result<(), Code>
        requires room { length (B.bytes to.old) + longest_live command ≤ B.capacity }
        ensures { ServesRequest B.bytes self.old self.new (live_asked command body.now)
            result to.old to.new }
    {
        match command {
            LiveCommand::GetDeviceId => show(&device_data(self.setup.device()), to),
            LiveCommand::GetSelfTestResults => show(&NO_ERROR, to),
            LiveCommand::ResetWatchdog => self.reset_watchdog(),
            LiveCommand::GetSensorReading => self.show_reading(byte_at(body, 0), to),
            LiveCommand::GetSdrRepositoryInfo => show(&sdr_info(&self.activity.sdr), to),
            LiveCommand::ReserveSdrRepository => {
                show(&self.activity.sdr.reserve().to_le_bytes(), to)
            },
            LiveCommand::GetSdr => show_sdr(&self.activity.sdr, &part_in(body), to),
            LiveCommand::GetSelInfo => show(&sel_info(&self.activity.log.info()), to),
            LiveCommand::ReserveSel => show(&self.activity.log.reserve().to_le_bytes(), to),
            LiveCommand::GetSelEntry => show_entry(&self.activity.log, &part_in(body), to),
            LiveCommand::AddSelEntry => add_entry(&mut self.activity.log, body, to),
            LiveCommand::ClearSel => clear(&mut self.activity.log, body, to),
            LiveCommand::GetSelTime => show(&self.activity.log.time().to_le_bytes(), to),
            LiveCommand::SetSelTime => {
                self.activity.log.set_time(time_in(body));
                Ok(())
            }
            LiveCommand::SetBootProgress(byte) => self.set_boot_progress(byte),
            LiveCommand::GetBootProgress => show(&progress_data(self.activity.boot_progress), to),
            LiveCommand::LeaveChannelAccess(channel) => self.leave_channel(channel),
            LiveCommand::SetUserPassword => self.set_password(body),
            LiveCommand::GetTid => show(&[self.setup.tid()], to),
            LiveCommand::GetPldmTypes => show(&PLDM_TYPES, to),
            LiveCommand::GetBiosTable => self.show_table(body, to),
            LiveCommand::AnswerLan(channel, answer) => self.answer_lan(channel, answer, to),
        }
    }

    /// Appends what a Get of the key's record replies. Gets of thresholds, of which most frames are, are compiled by themselves: they fill no local
    /// of another kind with zeros.
    pub(super) fn get<B: Buffer>(&self, key: &Key, to: &mut B) -> Result<(), Code>
        requires room { ReplyFits (Ok (request.Get key.now)) (B.bytes to.old) B.capacity }
        ensures { AppendsReply B.bytes result to.old to.new
            (serve_by self.now (request.Get key.now)).0 }
    {
        match key {
            Key::Thresholds(number) => self.get_at(&Key::Thresholds(*number), to),
            _ => self.get_any(key, to),
        }
    }

    /// Appends the same, for a key of whatever kind. It is never compiled into its callers.
    #[inline(never)]
    fn get_any<B: Buffer>(&self, key: &Key, to: &mut B) -> Result<(), Code>
        requires room { ReplyFits (Ok (request.Get key.now)) (B.bytes to.old) B.capacity }
        ensures { AppendsReply B.bytes result to.old to.new
            (serve_by self.now (request.Get key.now)).0 }
    {
        self.get_at(key, to)
    }

    /// Appends the same, and is compiled into its callers.
    #[inline(always)]
    fn get_at<B: Buffer>(&self, key: &Key, to: &mut B) -> Result<(), Code>
        requires room { ReplyFits (Ok (request.Get key.now)) (B.bytes to.old) B.capacity }
        ensures { AppendsReply B.bytes result to.old to.new
            (serve_by self.now (request.Get key.now)).0 }
    {
        match (self.setup.limits(key), self.records.store.get(key)) {
            (Some(limits), Some(value)) => {
                limits.get_first(value, &self.activity.live, to);
                Ok(())
            }
            _ => Err(unknown_code(&self.setup, key)),
        }
    }

    /// Carries out the operation, where its record takes it, and appends what the Set replies.
    #[inline(always)]
    pub(super) fn set<B: Buffer>(&mut self, op: &Op<'_>, to: &mut B) -> Result<(), Code>
        requires room { ReplyFits (Ok (request.Set op.now)) (B.bytes to.old) B.capacity }
        ensures { ServesRequest B.bytes self.old self.new (Ok (request.Set op.now))
            result to.old to.new }
    {
        self.records
            .set(&self.setup, op, &mut self.activity.live, to)?;
        outdate(&mut self.kept);
        Ok(())
    }

    /// Carries out the operation that the data say. Each kind has a function of its own: a function fills all operations of its own with
    /// zeros.
    #[inline(never)]
    fn carry_out<K: CommandReader, B: Buffer>(
        &mut self,
        body: &[u8],
        to: &mut B,
    ) -> Result<(), Code>
        requires { ReplyFits (set_read K.reader body.now) (B.bytes to.old) B.capacity }
        ensures { ServesRequest B.bytes self.old self.new (set_read K.reader body.now)
            result to.old to.new }
    {
        self.set(&K::op_in(body), to)
    }

    /// Carries out the command that changes a record of the kind.
    fn change<B: Buffer>(&mut self, kind: PlainKind, body: &[u8], to: &mut B) -> Result<(), Code>
        requires { ReplyFits (plain_set kind body.now) (B.bytes to.old)
            B.capacity }
        ensures { ServesRequest B.bytes self.old self.new
            (plain_set kind body.now)
            result to.old to.new }
    {
        of_each_plain_kind!(changed [self, kind, body, to])
    }

    /// Carries out Set System Boot Options.
    fn set_boot_options<B: Buffer>(&mut self, body: &[u8], to: &mut B) -> Result<(), Code>
        requires { ReplyFits (boot_set_asked body.now) (B.bytes to.old) B.capacity }
        ensures { ServesRequest B.bytes self.old self.new (boot_set_asked body.now)
            result to.old to.new }
    {
        match boot_request_in(body)? {
            BootRequest::Progress(byte) => self.live(LiveCommand::SetBootProgress(byte), &[], to),
            BootRequest::Param(op) => self.set(&Op::BootParam(op), to),
        }
    }

    /// Carries out Get System Boot Options.
    fn get_boot_options<B: Buffer>(&mut self, body: &[u8], to: &mut B) -> Result<(), Code>
        requires { ReplyFits (boot_get_asked body.now) (B.bytes to.old) B.capacity }
        ensures { ServesRequest B.bytes self.old self.new (boot_get_asked body.now)
            result to.old to.new }
    {
        match boot_shown_in(body)? {
            BootShown::Progress => self.live(LiveCommand::GetBootProgress, &[], to),
            BootShown::Param(parameter) => self.get(&Key::BootParam(parameter), to),
        }
    }

    /// Changes the access of a channel in one store, and its limit in another: both or neither.
    fn set_stores(
        &mut self,
        first: &SetChannelAccess,
        second: &SetChannelAccess,
    ) -> Result<(), Code>
        ensures { ServesSilently self.old self.new
            (Ok (request.SetStores first.now second.now)) result }
    {
        self.records.set_stores(&self.setup, first, second)?;
        outdate(&mut self.kept);
        Ok(())
    }

    /// Carries out Set Channel Access.
    fn set_channel_access<B: Buffer>(&mut self, body: &[u8], to: &mut B) -> Result<(), Code>
        requires { ReplyFits (channel_set_asked body.now) (B.bytes to.old)
            B.capacity }
        ensures { ServesRequest B.bytes self.old self.new
            (channel_set_asked body.now)
            result to.old to.new }
    {
        match channel_request_in(body) {
            ChannelRequest::Leave(channel) => {
                self.live(LiveCommand::LeaveChannelAccess(channel), &[], to)
            }
            ChannelRequest::One(op) => self.set(&Op::ChannelAccess(op), to),
            ChannelRequest::Two(first, second) => self.set_stores(&first, &second),
        }
    }

    /// Carries out the requester's command with the request's data, where a command was read, and appends the data of the reply.
    pub fn reply<B: Buffer>(
        &mut self,
        from: u8,
        command: Result<Command, Code>,
        body: &[u8],
        to: &mut B,
    ) -> Result<(), Code>
        requires room { ReplyFits (asked_of from command body.now) (B.bytes to.old) B.capacity }
        ensures { ServesRequest B.bytes self.old self.new (asked_of from command body.now)
            result to.old to.new }
    {
        match command? {
            Command::Live(command) => self.live(command, body, to),
            Command::Get(kind) => self.get(&kind.key_in(body), to),
            Command::Set(kind) => self.change(kind, body, to),
            Command::SetBootOptions => self.set_boot_options(body, to),
            Command::GetBootOptions => self.get_boot_options(body, to),
            Command::SetChannelAccess => self.set_channel_access(body, to),
            Command::GetChannelAccess => self.get(&Key::ChannelAccess(stored_in(body)), to),
            Command::SetBiosAttribute => self.set_attribute(from, body, to),
            Command::GetBiosAttribute => self.get_attribute(body, to),
            Command::SetLanParam => self.set_lan_param(body, to),
            Command::GetLanParam => self.get_lan_param(body, to),
        }
    }

    /// The answer to a request. It takes no memory.
    pub fn answer(&mut self, asked: &Asked) -> Answered
        // The answer and the state after it stand in the command relation, and are its function's.
        ensures row { Row self.old.setup (state_of self.old) asked.now
            result (state_of self.new) }
        ensures answer { (result, state_of self.new)
            ≡ given_by self.old asked.now }
        ensures setup { self.new.setup ≡ self.old.setup }

        // A refusal changes nothing, but that a full log which refuses a record notes that it overflowed.
        ensures refused { IsRefusal self.old asked.now result self.new }
        // The codes of a busy controller are not a board's.
        ensures not_busy { result.code ≢ node_busy }
        ensures ready { result.code ≢ pldm_not_ready }
        // The data fits the frame or message that carries it.
        ensures fits { length result.body ≤ room_for asked.now }
    {
        let (command, body) = read_request(asked);
        let mut shown = Bytes::new();
        let done = self.reply(requester(asked), command, body, &mut shown);
        answered(done, shown)
    }
}
