//! Printed replies, sessions and laws, against examples.

use node_runner::{
    Body, Command, LineReply, Lost, Past, Pasts, Refusal, Said, Saids, Spot, Spots,
    commands_decide_the_session, get_shows_what_was_put, print_reply, put_enters_a_new_name,
};
use std::alloc::{AllocError, Global};
use std::test::Fail;
use unit_id::Bytes;

/// A byte string of this text.
fn bytes(alloc: Global, text: &[u8]) -> Result<Bytes, AllocError> {
    Ok(Bytes::from_vec(text.to_vec(alloc)?))
}

/// Whether a reply is printed so.
fn prints(alloc: Global, reply: &LineReply, text: &[u8]) -> bool {
    match print_reply(alloc, reply) {
        Ok(line) => line.as_slice() == text,
        Err(_) => false,
    }
}

/// Whether two bytes that were got under the name `n` are printed.
fn got_is_printed(alloc: Global) -> Result<bool, AllocError> {
    let name = bytes(alloc, b"n")?;
    let bytes = bytes(alloc, b"\n~")?;
    let reply = LineReply::Got { name, bytes };
    Ok(prints(alloc, &reply, b"got n 0a7e\n"))
}

/// Whether a put of nothing that was refused is printed.
fn refused_is_printed(alloc: Global) -> Result<bool, AllocError> {
    let name = bytes(alloc, b"n")?;
    let body = Body::Fill { seed: 1, len: 0 };
    let reply = LineReply::Refused {
        command: Command::Put { name, body },
        cause: Refusal::Empty,
    };
    Ok(prints(alloc, &reply, b"refused put n empty\n"))
}

/// Whether a put with the greatest numbers is printed.
fn put_is_printed(alloc: Global) -> Result<bool, AllocError> {
    let name = bytes(alloc, b"n")?;
    let reply = LineReply::Put {
        name,
        vid: 4_294_967_295,
        bid: 18_446_744_073_709_551_615,
        size: 0,
    };
    let text = b"put n vid 4294967295 bid 18446744073709551615 size 0\n";
    Ok(prints(alloc, &reply, text))
}

#[test]
fn replies_are_printed(rt: HostRuntime) -> Result<(), Fail> {
    assert!(rt; got_is_printed(rt.alloc())?);
    assert!(rt; refused_is_printed(rt.alloc())?);
    assert!(rt; put_is_printed(rt.alloc())?);
    Ok(())
}

#[test]
fn laws_can_be_called(_rt: HostRuntime) {
    get_shows_what_was_put();
    put_enters_a_new_name();
    commands_decide_the_session();
}

/// Whether a list of places is its item.
fn keeps_spot(alloc: Global, spot: Spot) -> Result<bool, AllocError> {
    let own = Spots::from_vec(vec![in alloc; spot]?);
    Ok(own.len() == 1 && own.as_slice() == [spot].as_slice())
}

/// Whether the only item of a list says this of what was lost.
fn says(items: &[Said], lost: Lost) -> bool {
    match items {
        [said] => said.lost == Some(lost),
        _ => false,
    }
}

/// Whether a list of commands is its item.
fn keeps_said(alloc: Global, lost: Lost) -> Result<bool, AllocError> {
    let own = Spots::from_vec(Vec::new(alloc));
    let said = Said {
        own,
        lost: Some(lost),
    };
    let saids = Saids::from_vec(vec![in alloc; said]?);
    Ok(saids.len() == 1 && says(saids.as_slice(), lost))
}

/// Whether a list of volumes is its item.
fn keeps_past(alloc: Global, past: Past) -> Result<bool, AllocError> {
    let pasts = Pasts::from_vec(vec![in alloc; past]?);
    Ok(pasts.len() == 1 && pasts.as_slice() == [past].as_slice())
}

#[test]
fn lists_of_a_session_are_their_items(rt: HostRuntime) -> Result<(), Fail> {
    assert!(rt; keeps_spot(rt.alloc(), Spot { vid: 1, place: 7 })?);
    assert!(rt; keeps_said(rt.alloc(), Lost::Spoiled { place: 3 })?);
    assert!(rt; keeps_past(rt.alloc(), Past { vid: 1 })?);
    Ok(())
}
