//! Sentences for people: what is said of words, scripts, captures, reports and turns. Most of them are rows of `vg_rows`.

mod files;

use std::test::Fail;
use vg_explain::{file_named, script_fault, turns_named, words_fault};
use vg_model::Kind;
use vg_model::kinds::{CONNECT_TEXT, MATCH_TEXT, PUSH_TEXT, REWRITE_TEXT};

#[test]
fn a_name_that_begins_as_an_option_is_written_another_way(rt: HostRuntime) -> Result<(), Fail> {
    let alloc = rt.alloc();
    for (word, sentence) in [
        (
            "-x",
            "`-x` is no option and no file's name: a file of this name is written ./-x\n",
        ),
        ("", "an empty word names no file\n"),
    ] {
        let text = words_fault(alloc, &["run", word, "s", "t"])?;
        assert_eq!(rt; text.as_str(), sentence);
    }
    let text = words_fault(alloc, &["run", "--turns=-u", "c", "s", "t"])?;
    assert_eq!(rt;
        text.as_str(),
        "--turns wants the name of a file, and not `-u`: one that begins with `-` is written with ./ in front\n"
    );
    Ok(())
}

#[test]
fn files_are_found_among_options(rt: HostRuntime) -> Result<(), Fail> {
    let words = ["run", "--workers", "2", "c", "--turns=u", "s", "t"];
    assert!(rt; file_named(&words, 0) == Some("c") && file_named(&words, 1) == Some("s"));
    assert!(rt; turns_named(&words) == Some("u"));
    Ok(())
}

#[test]
fn all_kinds_are_named(rt: HostRuntime) -> Result<(), Fail> {
    let said = script_fault(rt.alloc(), 1, "kind", b"node a kind dot1q-push-0\n")?;
    assert!(rt;
        said.as_str()
            .starts_with("the kinds are handoff-flow, handoff-src, ")
    );
    for kind in &Kind::PLAIN {
        assert!(rt; said.contains(kind.name().text));
    }
    for text in [MATCH_TEXT, PUSH_TEXT, REWRITE_TEXT, CONNECT_TEXT] {
        assert!(rt; said.contains(text));
    }
    assert!(rt;
        said.as_str().ends_with(
            " with the number N of an interface from 0 to 15\n  node a kind dot1q-push-0\n              ^^^^^^^^^^^^\n"
        )
    );
    Ok(())
}
