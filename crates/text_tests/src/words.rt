//! The words of the command line. What they ask for is said by clauses and worked rows.
use command_words::{Mode, WordsFault, read_words};
use rel_base::{Memory, Text};
use std::alloc::Global;
use std::test::Fail;

/// The words as texts.
fn texts_of(alloc: Global, words: &[&str]) -> Result<Vec<Text>, Memory> {
    let mut texts = Vec::new(alloc);
    for word in words {
        texts.push(Text::of(alloc, word)?)?;
    }
    Ok(texts)
}

#[test]
fn words_are_read(rt: HostRuntime) -> Result<(), Fail> {
    let words = [
        "myria",
        "--workers",
        "8",
        "--seed=7",
        "--plan",
        "--reduce",
        "q",
    ];
    let texts = texts_of(rt.alloc(), words.as_slice())?;
    let request = read_words(rt.alloc(), texts.as_slice())?;
    assert_eq!(rt; request.mode, Mode::Run);
    assert_eq!(rt; request.settings.workers, 8);
    assert_eq!(rt; request.settings.capacity, 16);
    assert_eq!(rt; request.settings.seed, 7);
    assert!(rt; request.settings.reduce);
    assert!(rt; request.plan && !request.traffic);
    assert_eq!(rt; request.size, 1000);
    assert_eq!(rt; request.script.as_str(), "q");
    Ok(())
}

#[test]
fn a_replay_has_the_name_of_its_plan(rt: HostRuntime) -> Result<(), Fail> {
    let words = ["myria", "--mode=replay", "--from", "p.json", "q"];
    let texts = texts_of(rt.alloc(), words.as_slice())?;
    let request = read_words(rt.alloc(), texts.as_slice())?;
    assert_eq!(rt; request.mode, Mode::Replay);
    let name = request.from.as_ref().map(|name| name.as_str());
    assert_eq!(rt; name, Some("p.json"));
    Ok(())
}

#[test]
fn bad_words_are_refused(rt: HostRuntime) -> Result<(), Fail> {
    let many = ["myria", "--mode", "check", "--workers", "65", "q"];
    let no_plan = ["myria", "--mode", "replay", "q"];
    for words in [many.as_slice(), no_plan.as_slice()] {
        let texts = texts_of(rt.alloc(), words)?;
        let fault = read_words(rt.alloc(), texts.as_slice()).err();
        assert_eq!(rt; fault, Some(WordsFault::Usage));
    }
    Ok(())
}
