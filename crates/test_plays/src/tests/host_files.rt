//! The files of the host.
use app_base::{HostFiles, TextFiles, UnreadFile};
use std::fs;

/// Whether the host's file of this name is read as this text, or isn't read for this reason.
fn is_read_as(rt: &HostRuntime, word: &str, wanted: Result<&str, UnreadFile>) -> bool {
    match (HostFiles { rt }.text(word), wanted) {
        (Ok(text), Ok(wanted)) => text.as_str() == wanted,
        (Err(why), Err(wanted)) => why == wanted,
        _ => false,
    }
}

#[test]
fn a_file_of_the_host_is_read_where_it_has_a_text(rt: HostRuntime) {
    assert!(rt; fs::write(&rt, "text.toml", "tid = 5\n").is_ok());
    assert!(rt; fs::write(&rt, "no_text.toml", &[0xFF, 0x0A][..]).is_ok());
    assert!(rt; is_read_as(&rt, "text.toml", Ok("tid = 5\n")));
    assert!(rt; is_read_as(&rt, "no_text.toml", Err(UnreadFile::NoText)));
    assert!(rt; is_read_as(&rt, "none.toml", Err(UnreadFile::NoText)));
}
