//! Messages that were written, read back.

ghost use Rattle.std.specs.Prelude.{◌≡◌, ◌++◌, [], ◌∷◌, false, IfOk, OnOk};
ghost use Rattle.rs_request.specs.Writing.{IsWritable};
ghost use Rattle.rs_reply.specs.Writing.{IsWritableReply};

use crate::replies::FOUND;
use rs_path::{Bytes, NoMemory};
use rs_wire::{
    Field, Fields, ReplyMessage, RequestMessage, RequestReader, Step, write_reply, write_request,
};
use std::alloc::Global;
use std::test::Fail;

/// Bytes of our own.
fn bytes_of(alloc: Global, text: &[u8]) -> Result<Bytes, NoMemory>
    ensures { IfOk result (λ bytes. bytes ≡ text.now) }
{
    let mut list = Vec::new(alloc);
    list.extend_from_slice(text)?;
    Ok(Bytes::of(list))
}

/// Puts a field at the end.
fn put(alloc: Global, fields: &mut Fields, name: &[u8], value: &[u8]) -> Result<(), NoMemory>
    ensures { OnOk result (fields.new ≡ fields.old ++ (record { name = name.now; value = value.now } ∷ [])) }
{
    let name = bytes_of(alloc, name)?;
    let value = bytes_of(alloc, value)?;
    fields.push(Field::new(name, value))
}

/// The GET of `/` at the host `h`.
fn get_root(alloc: Global) -> Result<RequestMessage, NoMemory>
    ensures { IfOk result IsWritable }
{
    let mut fields = Fields::new(alloc);
    put(alloc, &mut fields, b"Host", b"h")?;
    let method = bytes_of(alloc, b"GET")?;
    let target = bytes_of(alloc, b"/")?;
    Ok(RequestMessage {
        method,
        target,
        minor: 1,
        fields,
        body: Bytes::of(Vec::new(alloc)),
        close: false,
        place: 0,
    })
}

#[test]
fn a_written_request_is_read_back(rt: HostRuntime) -> Result<(), Fail> {
    let alloc = rt.alloc();
    let request = get_root(alloc)?;
    let mut text = Vec::new(alloc);
    write_request(alloc, &request, &mut text)?;
    assert_eq!(rt;
        text.as_slice(),
        b"GET / HTTP/1.1\r\nHost: h\r\n\r\n".as_slice()
    );
    let mut reader = RequestReader::new(alloc);
    reader.feed(text.as_slice())?;
    let Step::Message(again) = reader.next()? else {
        assert!(rt; false);
        return Ok(());
    };
    let mut before = Vec::new(alloc);
    crate::requests::show(alloc, &request, &mut before)?;
    let mut after = Vec::new(alloc);
    crate::requests::show(alloc, &again, &mut after)?;
    assert_eq!(rt; after, before);
    assert!(rt; matches!(reader.next(), Ok(Step::More)));
    assert!(rt; reader.finish().is_ok());
    Ok(())
}

/// The reply with the document `hello` of version 2.
fn found(alloc: Global) -> Result<ReplyMessage, NoMemory>
    ensures { IfOk result (IsWritableReply false) }
{
    let mut fields = Fields::new(alloc);
    put(alloc, &mut fields, b"Access-Control-Allow-Origin", b"*")?;
    put(
        alloc,
        &mut fields,
        b"Access-Control-Expose-Headers",
        b"ETag, Content-Type, Content-Length",
    )?;
    put(alloc, &mut fields, b"ETag", b"\"2\"")?;
    put(alloc, &mut fields, b"Cache-Control", b"no-cache")?;
    put(alloc, &mut fields, b"Content-Type", b"text/plain")?;
    put(alloc, &mut fields, b"Content-Length", b"5")?;
    let body = bytes_of(alloc, b"hello")?;
    Ok(ReplyMessage {
        status: 200,
        fields,
        body,
    })
}

#[test]
fn a_written_reply_is_read_back(rt: HostRuntime) -> Result<(), Fail> {
    let alloc = rt.alloc();
    let reply = found(alloc)?;
    let mut text = Vec::new(alloc);
    write_reply(alloc, &reply, false, &mut text)?;
    assert_eq!(rt; text.as_slice(), FOUND);
    let before = crate::replies::show(alloc, &reply)?;
    let after = crate::replies::outcome(alloc, false, text.as_slice())?;
    assert_eq!(rt; after, before);
    Ok(())
}
