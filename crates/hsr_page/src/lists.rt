//! Numbers in the data of a page, as JSON.
ghost use Rattle.std.specs.Prelude.{◌≡◌, ◌++◌, OnErr, OnOk, codes};
ghost use Rattle.std.specs.Fmt.{decimal};
ghost use Rattle.std.specs.List.{flat_map, join_by};
ghost use Rattle.hsr_page.specs.Lists.{numbers_text, place_text};

use hsr_frame::NoMemory;
use hsr_text::{put, put_number};

/// Puts a comma and a number last.
fn put_next(text: &mut Vec<u8>, number: usize) -> Result<(), NoMemory>
    ensures { OnOk result (text.new.items ≡ text.old.items ++ (codes "," ++ decimal number)) }
{
    put(text, ",")?;
    put_number(text, number as u64)
}

/// Puts numbers last, each behind a comma.
#[tactic(auto, using(hsr_frame::proofs::OneMore::grown))]
fn put_rest(text: &mut Vec<u8>, numbers: &[usize]) -> Result<(), NoMemory>
    ensures { OnOk result (text.new.items ≡ text.old.items
        ++ flat_map (λ n. codes "," ++ decimal n) numbers.now) }
{
    for number in numbers {
        put_next(text, *number)?;
    }
    Ok(())
}

/// Puts numbers with commas between them last.
fn put_joined(text: &mut Vec<u8>, numbers: &[usize]) -> Result<(), NoMemory>
    ensures { OnOk result (text.new.items ≡ text.old.items
        ++ join_by decimal (codes ",") numbers.now) }
{
    match numbers {
        [] => Ok(()),
        [first, rest @ ..] => {
            put_number(text, *first as u64)?;
            put_rest(text, rest)
        }
    }
}

/// Puts a list of numbers as JSON last, such as `[3,1,4]`. `NoMemory` if allocation fails; a front of it may stand there then.
#[tactic(auto, unfolding(crate::specs::Lists::numbers_text))]
pub fn put_json_numbers(text: &mut Vec<u8>, numbers: &[usize]) -> Result<(), NoMemory>
    ensures { OnOk result (text.new.items ≡ text.old.items ++ numbers_text numbers.now) }
{
    put(text, "[")?;
    put_joined(text, numbers)?;
    put(text, "]")
}

/// Puts a place in a list as JSON last; -1 stands for none. `NoMemory` if allocation fails: then nothing changes.
pub fn put_json_place(text: &mut Vec<u8>, place: Option<usize>) -> Result<(), NoMemory>
    ensures ok { OnOk result (text.new.items ≡ text.old.items ++ place_text place) }
    ensures err { OnErr result (text.new.items ≡ text.old.items) }
{
    match place {
        Some(place) => put_number(text, place as u64),
        None => put(text, "-1"),
    }
}
