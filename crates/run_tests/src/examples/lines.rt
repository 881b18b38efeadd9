//! What the documentation of `lvl_line`, `lvl_list` and `lvl_job` shows, line by line.
ghost use Rattle.std.specs.Prelude.{◌≡◌};

use crate::runs::SQUARE;
use lvl_io::fake::{Pieces, Sink};
use lvl_job::{Files, Look, OpenFault, do_line};
use lvl_line::{Job, parse_line};
use lvl_list::{push_line, read_list};
use std::test::Fail;

#[test]
fn one_line(rt: HostRuntime) -> Result<(), Fail> {
    let alloc = rt.alloc();
    let Ok(Job::Show { file, top, .. }) = parse_line(alloc, &["lvl", "show", "chip.gds"]) else {
        return Err(Fail::from("the line is refused"));
    };
    assert_eq!(rt; file.as_str(), "chip.gds");
    assert!(rt; top.is_none());
    Ok(())
}

/// The digits of some digest.
const DIGITS: &[u8; 64] = b"cfc0bc7fd8a84f10bc2892f2c74e75073d5463f896d47d97244a7b12a9635572";

#[test]
fn two_files(rt: HostRuntime) -> Result<(), Fail> {
    let alloc = rt.alloc();
    let mut text = Vec::new(alloc);
    push_line(&mut text, DIGITS, b"a.gds")?;
    push_line(&mut text, DIGITS, b"b.oas")?;
    let entries = read_list(alloc, &text)?;
    assert_eq!(rt; entries.len(), 2);
    assert_eq!(rt; entries[1].name.as_str(), "b.oas");
    Ok(())
}

/// A file that is read in pieces, and has not failed.
fn pieces(bytes: &'static [u8]) -> Pieces<'static>
    ensures { result.errors ≡ 0 }
{
    Pieces {
        rest: bytes,
        most: 7,
        failures: 0,
        errors: 0,
    }
}

/// One file, `square`, and how many times a file was asked for.
#[derive(Drop)]
struct Held {
    asked: u8,
}

impl Files for Held {
    type File = Pieces<'static>;

    ghost opens = { λ _ _ _ _. Unit {0} };

    ghost looks = { λ _ _ _. Unit {0} };

    fn open(&mut self, name: &str) -> Result<Pieces<'static>, OpenFault> {
        self.asked = self.asked.saturating_add(1);
        match name {
            "square" => Ok(pieces(SQUARE)),
            _ => Err(OpenFault::Missing),
        }
    }

    fn look(&self, _name: &str) -> Look {
        Look::Plain
    }
}

#[test]
fn a_job(rt: HostRuntime) {
    let alloc = rt.alloc();
    let mut out = Sink::new(alloc, usize::MAX);
    let mut err = Sink::new(alloc, usize::MAX);
    let words = ["lvl", "show", "square"];
    let code = do_line(alloc, &words, &mut Held { asked: 0 }, &mut out, &mut err);
    assert_eq!(rt; code, 0);
    assert!(rt; out.taken.ends_with(b"layer 1 datatype 0 rings 1\n"));
}
