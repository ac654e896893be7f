//! Types of a program that are compared, joined, and asked what they hold.
use abs_command::source::program_of;
use abs_program::Named;
use abs_tree::{Place, TypeTerm};
use abs_types::{holds_objects, join, subtype};
use std::test::Fail;

// The interface with this name.
fn interface(program: &Named<'_>, name: &[u8]) -> TypeTerm {
    let place = Place {
        offset: 0,
        line: 1,
        column: 1,
    };
    TypeTerm::Interface(place, program.symbols.symbol_of(name))
}

// An interface fits one that it extends, and their join is that one.
#[test]
fn interfaces_join(rt: HostRuntime) -> Result<(), Fail> {
    let alloc = rt.alloc();
    let contracted = program_of(alloc, b"interface I { } interface J extends I { } { }")?;
    let program = contracted.checked();
    let above = interface(program.named(), b"I");
    let below = interface(program.named(), b"J");
    assert!(rt; subtype(program.named(), &below, &above));
    assert!(rt; !subtype(program.named(), &above, &below));
    assert!(rt; holds_objects(program.named(), &below));
    let joined = join(alloc, program.named(), &below, &above)?;
    assert!(rt; joined == Some(above));
    Ok(())
}
