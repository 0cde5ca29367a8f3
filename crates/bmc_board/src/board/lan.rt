//! The commands of LAN configuration parameters.
ghost use Rattle.std.specs.Prelude.{Ok, ◌+◌, ◌≤◌, length};

use crate::board::Board;
use crate::board::serve::show;
use crate::live::LiveCommand;
use cfg_records::{Key, Op, Store};
use record_base::ChannelNumber;
use two_wire::{Buffer, Code, code};
use user_chan::lan_request::{LanAnswer, LanRequest, LanShown, lan_request_in, lan_shown_in};

/// The revision of the parameters (IPMI 2.0, Get LAN Configuration Parameters): 1.1.
const REVISION: [u8; 1] = [0x11];

/// The code of a parameter that isn't supported (IPMI 2.0, Set and Get LAN Configuration Parameters).
const UNSUPPORTED_PARAMETER: u8 = 0x80;

impl<S: Store> Board<S> {
    ghost use Rattle.bmc_board.specs.Gives.{AppendsReply};
    ghost use Rattle.bmc_board.specs.Serves.{ReplyFits, ServesRequest};
    ghost use Rattle.bmc_board.specs.Live.{longest_live_reply};
    ghost use Rattle.bmc_board.specs.LanCommands.{lan_set_asked, lan_get_asked, lan_answer};

    /// Appends what a command that names no record replies, where the channel has LAN parameters.
    pub(super) fn answer_lan<B: Buffer>(
        &self,
        channel: ChannelNumber,
        answer: LanAnswer,
        to: &mut B,
    ) -> Result<(), Code>
        requires room { length (B.bytes to.old) + longest_live_reply ≤ B.capacity }
        ensures { AppendsReply B.bytes result to.old to.new
            (lan_answer self.now.setup channel answer) }
    {
        if self.setup.lan(channel).is_none() {
            return Err(code::INVALID_DATA_FIELD);
        }
        match answer {
            LanAnswer::Revision => show(&REVISION, to),
            LanAnswer::Unsupported => Err(Code::new(UNSUPPORTED_PARAMETER).unwrap()),
            LanAnswer::WrongLength => Err(code::INVALID_LENGTH),
        }
    }

    /// Carries out Set LAN Configuration Parameters.
    pub(super) fn set_lan_param<B: Buffer>(&mut self, body: &[u8], to: &mut B) -> Result<(), Code>
        requires { ReplyFits (Ok (lan_set_asked body.now)) (B.bytes to.old) B.capacity }
        ensures { ServesRequest B.bytes self.old self.new (Ok (lan_set_asked body.now))
            result to.old to.new }
    {
        match lan_request_in(body) {
            LanRequest::Param(op) => self.set(&Op::LanParam(op), to),
            LanRequest::Other(channel, answer) => {
                self.live(LiveCommand::AnswerLan(channel, answer), &[], to)
            }
        }
    }

    /// Carries out Get LAN Configuration Parameters.
    pub(super) fn get_lan_param<B: Buffer>(&mut self, body: &[u8], to: &mut B) -> Result<(), Code>
        requires { ReplyFits (Ok (lan_get_asked body.now)) (B.bytes to.old) B.capacity }
        ensures { ServesRequest B.bytes self.old self.new (Ok (lan_get_asked body.now))
            result to.old to.new }
    {
        match lan_shown_in(body) {
            LanShown::Param(on) => self.get(&Key::LanParam(on), to),
            LanShown::Other(channel, answer) => {
                self.live(LiveCommand::AnswerLan(channel, answer), &[], to)
            }
        }
    }
}
