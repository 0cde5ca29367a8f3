//! What holds of the definitions alone.
ghost use Rattle.bmc_board.specs.AnyAnswer.{HasAnswer, HasOneAnswer, NeverBusy, UnknownIsRefused, RefusedLeaves, StaysSound, AnswersFit};
ghost use Rattle.bmc_board.specs.AnyLive.{AreLive, LeaveRecords};
ghost use Rattle.bmc_board.specs.Decode.{IsReadFromAll, GetsAreRead, SetsAreRead, UndosArePlain};
ghost use Rattle.bmc_board.specs.SeriesRead.{PartsAreRead, SetsBegin, LaterPartsAreRead, SeriesAreFromNobody};
ghost use Rattle.bmc_board.specs.Undo.{IsAReply, IsUndone, IsSteady, IsShownAsBefore};
ghost use Rattle.bmc_board.specs.PldmTypes.{TypesAreNamed};
ghost use Rattle.bmc_board.specs.Quiet.{KeepsRecords, KeepsStagings};
ghost use Rattle.bmc_board.specs.StandingValues.{AttributesHaveValues};
ghost use Rattle.bmc_board.specs.Stores.{BothOrNone};

/// Each request has an answer and a state after it, and no other.
pub fn one_answer()
    ensures answered { HasAnswer }
    ensures once { HasOneAnswer }
{}

/// No command answers the codes of a busy controller, and none answers success where a record isn't there.
pub fn codes_law()
    ensures answers { NeverBusy }
    ensures unknown { UnknownIsRefused }
{}

/// A refused request leaves what was there. Add SEL Entry alone notes that it was refused: the log overflowed.
pub fn refusal_law()
    ensures { RefusedLeaves }
{}

/// Where each record has a value that its limits allow, each has one after any answer, and the answer's data fits the frame or message
/// that carries it.
pub fn sound_law()
    ensures records { StaysSound }
    ensures fits { AnswersFit }
{}

/// A live command leaves the records. Its code isn't a busy controller's, its data fits the frame or message that carries it, and where it refuses it changes
/// nothing, but that a full log which refuses a record notes that it overflowed.
pub fn live_law()
    ensures answers { AreLive }
    ensures records { LeaveRecords }
{}

/// The request that gets a record is read as that Get, and the request that carries out an operation as that Set. Both are from
/// nobody, to logical unit 0, and mean the same from anyone. The inverse of an operation has 0 in each bit that a controller ignores.
pub fn decode_law()
    ensures gets { GetsAreRead }
    ensures sets { SetsAreRead }
    ensures anyone { IsReadFromAll }
    ensures plain { UndosArePlain }
{}

/// Each request of a series is read as what it does there: a part of an operation as its requester's part of that place, and the request
/// for a later part of an attribute's entry as that. The kind's own request is the first of its series, and all are from nobody.
pub fn series_law()
    ensures parts { PartsAreRead }
    ensures first { SetsBegin }
    ensures later { LaterPartsAreRead }
    ensures nobody { SeriesAreFromNobody }
{}

/// A Get that is carried out replies data of the kind, or the first part of them. Where a record was got and then set, and the Set has an inverse from the Get
/// reply, the request of that inverse is carried out, and then every record of the board is what it was before, whoever asks, and
/// whatever became of the activity.
pub fn undo_law()
    ensures reply { IsAReply }
    ensures undone { IsUndone }
{}

/// Two Gets of a record show the same configuration where the records of the board are the same: so do a Get of any record before
/// a change and a Get of it after the undo.
pub fn conf_law()
    ensures steady { IsSteady }
    ensures undone { IsShownAsBefore }
{}

/// A request whose command sets no configuration leaves every record as it is, and what is staged, be it carried out or refused.
pub fn quiet_law()
    ensures records { KeepsRecords }
    ensures staged { KeepsStagings }
{}

/// A request that changes the access of a channel in one store, and its limit in another, changes both records, where both changes are
/// accepted, or is refused and changes nothing.
pub fn stores_law()
    ensures { BothOrNone }
{}

/// GetPLDMTypes names exactly the types whose requests aren't refused for their type.
pub fn pldm_types_law()
    ensures { TypesAreNamed }
{}

/// Where each record has a value that its limits allow, the bytes of the attributes' records are values of their types. So the table of values
/// that is shown of them is the table of these values' entries.
pub fn attribute_values_law()
    ensures { AttributesHaveValues }
{}
