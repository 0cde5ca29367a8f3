//! The sentences and the objects of what was taken back. The managers are made of the texts of journals.
use app_apply::{Outcome, Reach};
use app_journal::{WriteFault, revive_text};
use app_revert::{Looked, RevertWords, Reverted, Sight, Sighting, revert_json, revert_text};
use app_run::Unanswered;
use record_base::Key;
use report_words::{Names, id_string};
use std::alloc::{AllocError, Global};
use std::process::Abort;
use two_wire::Bus;
use undo_core::Manager;

/// The journal of a plan of two steps that were done: the upper critical thresholds of sensors 5 and 6 were 95 and 96.
const HEAD: &str = "journal 1
retries 3
names 2C203020080A
unlisted
steps 2
ipmb 10260510000000005A00
ipmb 10260610000000005B00
undo 2
ipmb 10260510000000005F00
ipmb 10260610000000006000
waiting 0
";

/// The manager of a journal that ends so.
fn manager_of(rt: &impl Abort, alloc: Global, stage: &str) -> Manager {
    let text = format!(in alloc; "{HEAD}{stage}no replies\n").expect(rt, "memory");
    revive_text(alloc, text.as_str()).expect(rt, "a journal")
}

/// The words `revert plan.undo 9620 9621`.
fn words_of(rt: &impl Abort, alloc: Global) -> RevertWords {
    RevertWords {
        file: String::from_str(alloc, "plan.undo").expect(rt, "memory"),
        reach: Reach {
            ipmb_port: 9620,
            smbus_port: Some(9621),
            wait_ms: 200,
            again: 3,
        },
        json: false,
    }
}

/// No look told anything.
fn no_looks(alloc: Global) -> Looked {
    Looked {
        sightings: Vec::new(alloc),
        differs: false,
        unseen: false,
    }
}

/// A look at the thresholds of sensor 5 told this.
fn one_look(rt: &impl Abort, alloc: Global, sight: Sight) -> Looked {
    let mut sightings = Vec::new(alloc);
    let key = Key::Thresholds(5);
    sightings.push(Sighting { key, sight }).expect(rt, "memory");
    Looked {
        sightings,
        differs: sight == Sight::Differs,
        unseen: sight == Sight::Unseen,
    }
}

/// The id string of sensor 5, its type and length first: eight bytes of ASCII and Latin 1 are `CPU "0"`, and B0h is a degree sign.
const ID_STRING: [u8; 9] = [0xC8, b'C', b'P', b'U', b' ', b'"', b'0', b'"', 0xB0];

/// The name of sensor 5 is known.
fn one_name(rt: &impl Abort, alloc: Global) -> Names {
    let keys = [Key::Thresholds(5)];
    let mut names = Names::wanted(alloc, &keys).expect(rt, "memory");
    names.name_sensor(5, id_string(&ID_STRING));
    names
}

/// This is said of a manager of which that came.
fn expect_said(rt: &impl Abort, alloc: Global, reverted: Reverted, sentence: &str, object: &str) {
    let words = words_of(rt, alloc);
    let said = revert_text(alloc, &words, &reverted).expect(rt, "memory");
    let line = revert_json(alloc, &words, &reverted).expect(rt, "memory");
    assert_eq!(rt; said.as_str(), sentence);
    assert_eq!(rt; line.as_str(), object);
}

/// The same of one that ended as its journal says.
fn expect_ended(
    rt: &impl Abort,
    alloc: Global,
    stage: &str,
    kept: Result<(), WriteFault>,
    looked: Looked,
    sentence: &str,
    object: &str,
) {
    let manager = manager_of(rt, alloc, stage);
    let outcome = Outcome::Ended(manager.phase(), kept);
    let reverted = Reverted {
        manager,
        outcome,
        looked,
        names: Ok(Names::new(alloc)),
    };
    expect_said(rt, alloc, reverted, sentence, object);
}

/// The same of one that wasn't called.
fn expect_uncalled(rt: &impl Abort, alloc: Global, outcome: Outcome, sentence: &str, object: &str) {
    let reverted = Reverted {
        manager: manager_of(rt, alloc, "stage done 0 0\ngo\ncounts 4 0\n"),
        outcome,
        looked: no_looks(alloc),
        names: Ok(Names::new(alloc)),
    };
    expect_said(rt, alloc, reverted, sentence, object);
}

#[test]
fn a_record_that_differs_behind_it_is_named(rt: HostRuntime) {
    let alloc = rt.alloc();
    expect_ended(
        &rt,
        alloc,
        "stage undone 0 0\ngo\ncounts 6 0\n",
        Ok(()),
        one_look(&rt, alloc, Sight::Differs),
        "taken back: 2 steps; plan.undo.done has the requests that did it, and plan.undo is empty
sensor 5 thresholds isn't as before: somebody else set it, or the controller lost it
",
        "{\"outcome\":\"undone\",\"steps\":2,\"stands\":0,\"records\":[{\"record\":\"sensor 5 thresholds\",\"why\":\"differs\"}],\"looked\":true,\"file\":\"plan.undo\",\"kept\":true}\n",
    );
}

/// Its name isn't said where memory for names was refused.
#[test]
fn a_record_that_differs_is_told_without_memory_for_names(rt: HostRuntime) {
    let alloc = rt.alloc();
    let manager = manager_of(&rt, alloc, "stage undone 0 0\ngo\ncounts 6 0\n");
    let outcome = Outcome::Ended(manager.phase(), Ok(()));
    let reverted = Reverted {
        manager,
        outcome,
        looked: one_look(&rt, alloc, Sight::Differs),
        names: Err(AllocError),
    };
    expect_said(
        &rt,
        alloc,
        reverted,
        "taken back: 2 steps; plan.undo.done has the requests that did it, and plan.undo is empty
sensor 5 thresholds isn't as before: somebody else set it, or the controller lost it
",
        "{\"outcome\":\"undone\",\"steps\":2,\"stands\":0,\"records\":[{\"record\":\"sensor 5 thresholds\",\"why\":\"differs\"}],\"looked\":true,\"file\":\"plan.undo\",\"kept\":true}\n",
    );
}

/// A sentence is printable ASCII: a quote of a name and each other byte is `\x` and its two digits. In an object a quote is escaped, and a byte is the
/// character of Latin 1.
#[test]
fn a_record_that_differs_has_the_name_of_its_sensor(rt: HostRuntime) {
    let alloc = rt.alloc();
    let manager = manager_of(&rt, alloc, "stage undone 0 0\ngo\ncounts 6 0\n");
    let outcome = Outcome::Ended(manager.phase(), Ok(()));
    let reverted = Reverted {
        manager,
        outcome,
        looked: one_look(&rt, alloc, Sight::Differs),
        names: Ok(one_name(&rt, alloc)),
    };
    expect_said(
        &rt,
        alloc,
        reverted,
        "taken back: 2 steps; plan.undo.done has the requests that did it, and plan.undo is empty
sensor 5 (\"CPU \\x220\\x22\\xB0\") thresholds isn't as before: somebody else set it, or the controller lost it
",
        "{\"outcome\":\"undone\",\"steps\":2,\"stands\":0,\"records\":[{\"record\":\"sensor 5 thresholds\",\"name\":\"CPU \\\"0\\\"\u{B0}\",\"why\":\"differs\"}],\"looked\":true,\"file\":\"plan.undo\",\"kept\":true}\n",
    );
}

#[test]
fn a_record_that_is_not_seen_behind_it_is_named(rt: HostRuntime) {
    let alloc = rt.alloc();
    expect_ended(
        &rt,
        alloc,
        "stage undone 0 0\ngo\ncounts 6 0\n",
        Ok(()),
        one_look(&rt, alloc, Sight::Unseen),
        "taken back: 2 steps; plan.undo.done has the requests that did it, and plan.undo is empty
sensor 5 thresholds couldn't be looked at: no answer
",
        "{\"outcome\":\"undone\",\"steps\":2,\"stands\":0,\"records\":[{\"record\":\"sensor 5 thresholds\",\"why\":\"unanswered\"}],\"looked\":false,\"file\":\"plan.undo\",\"kept\":true}\n",
    );
}

#[test]
fn a_refused_request_says_what_stands(rt: HostRuntime) {
    let alloc = rt.alloc();
    expect_ended(
        &rt,
        alloc,
        "stage undo-refused 0 204\ngo\ncounts 6 0\n",
        Ok(()),
        no_looks(alloc),
        "step 1 can't be taken back: refused (CCh, invalid data field), sensor 5 upper critical <- 95 (5Fh); step 1 stands, and plan.undo has what takes it back: bmcnet revert plan.undo 9620 9621
",
        "{\"outcome\":\"undo refused\",\"steps\":2,\"stands\":1,\"refused\":{\"step\":1,\"undo\":\"sensor 5 upper critical <- 95 (5Fh)\",\"code\":204,\"meaning\":\"invalid data field\"},\"records\":[],\"looked\":false,\"file\":\"plan.undo\",\"kept\":true,\"next\":\"bmcnet revert plan.undo 9620 9621\"}\n",
    );
}

#[test]
fn a_request_without_an_answer_is_named(rt: HostRuntime) {
    let alloc = rt.alloc();
    expect_ended(
        &rt,
        alloc,
        "stage undo 1 0\ngo\ncounts 4 0\n",
        Ok(()),
        no_looks(alloc),
        "no answer to what takes step 2 back, sensor 6 upper critical <- 96 (60h): whether it was taken back isn't known; to settle it and take back what was done: bmcnet revert plan.undo 9620 9621
",
        "{\"outcome\":\"unsettled\",\"steps\":2,\"open\":{\"step\":2,\"request\":\"undo\"},\"records\":[],\"looked\":false,\"file\":\"plan.undo\",\"kept\":true,\"next\":\"bmcnet revert plan.undo 9620 9621\"}\n",
    );
}

#[test]
fn a_file_that_is_not_written_is_named(rt: HostRuntime) {
    let alloc = rt.alloc();
    expect_ended(
        &rt,
        alloc,
        "stage undone 0 0\ngo\ncounts 6 0\n",
        Err(WriteFault),
        no_looks(alloc),
        "all is taken back, but plan.undo.done or plan.undo couldn't be written; to write them: bmcnet revert plan.undo 9620 9621
",
        "{\"outcome\":\"undone\",\"steps\":2,\"stands\":0,\"records\":[],\"looked\":false,\"file\":\"plan.undo\",\"kept\":false,\"next\":\"bmcnet revert plan.undo 9620 9621\"}\n",
    );
}

#[test]
fn what_is_not_taken_back_says_why(rt: HostRuntime) {
    let alloc = rt.alloc();
    expect_uncalled(
        &rt,
        alloc,
        Outcome::Unmade,
        "plan.undo can't be written; nothing was sent\n",
        "{\"outcome\":\"unmade\",\"steps\":2,\"records\":[],\"looked\":false,\"file\":\"plan.undo\",\"kept\":false}\n",
    );
    let silent = Unanswered {
        bus: Bus::Ipmb,
        busy: false,
    };
    expect_uncalled(
        &rt,
        alloc,
        Outcome::Ungreeted(silent),
        "no answer on ipmb, port 9620; nothing was taken back; to go on: bmcnet revert plan.undo 9620 9621\n",
        "{\"outcome\":\"no answer\",\"bus\":\"ipmb\",\"steps\":2,\"records\":[],\"looked\":false,\"file\":\"plan.undo\",\"kept\":true,\"next\":\"bmcnet revert plan.undo 9620 9621\"}\n",
    );
}
