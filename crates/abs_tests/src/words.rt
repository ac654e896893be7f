//! What words of a command line ask for.
use abs_options::{Options, OptionsError, Wanted, options};
use std::test::Fail;

/// What these words ask for.
fn asked(rt: &impl AllocGlobal, words: &[&str]) -> Result<Options, OptionsError> {
    let mut list = Vec::new(rt.alloc());
    for word in words {
        let Ok(word) = String::from_str(rt.alloc(), word) else {
            return Err(OptionsError::Memory);
        };
        if list.push(word).is_err() {
            return Err(OptionsError::Memory);
        }
    }
    options(rt.alloc(), &list)
}

#[test]
fn words_ask_for_options(rt: HostRuntime) -> Result<(), Fail> {
    let given = ["abs", "--steps", "10", "x.abs"].as_slice();
    let asked_for = asked(&rt, given).expect(&rt, "options");
    assert!(rt; asked_for.steps == 10 && asked_for.facts == 1_000_000 && asked_for.depth == 1);
    assert!(rt; !asked_for.check && !asked_for.trace && asked_for.workers == 4);
    assert!(rt; matches!(&asked_for.input, Wanted::File(name) if name.as_str() == "x.abs"));
    let made = asked(&rt, ["abs", "--make=02", "--check"].as_slice()).expect(&rt, "options");
    assert!(rt; made.check && matches!(&made.input, Wanted::Make(2)));
    let both = asked(&rt, ["abs", "--make", "3", "x.abs"].as_slice());
    assert!(rt; matches!(both, Err(OptionsError::Usage)));
    Ok(())
}
