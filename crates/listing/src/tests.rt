use crate::lines::list;
use std::process::Abort;
use std::test::Fail;

// The listing of a trace is the expected text.
fn check_listing(
    rt: &(impl Abort + AllocGlobal),
    trace: &[u8],
    expected: &str,
) -> Result<(), Fail> {
    let text = list(rt.alloc(), trace)?;
    assert_eq!(rt; text.as_str(), expected);
    Ok(())
}

#[test]
fn each_record_in_words(rt: HostRuntime) -> Result<(), Fail> {
    check_listing(
        &rt,
        b"CA\x01\x03\x00\x05\xff\xff\x01\x02",
        "0  call: thread 1, kind 3, a 5, b 65535, after 1 8\n1 record\n",
    )?;
    check_listing(
        &rt,
        b"RE\x00\x00\x00\x00RE\x01\x01\x00\x07RE\x02\x02\x00\x00RE\x03\x02\x00\x01",
        "0  reply: thread 0, nothing\n6  reply: thread 1, number 7\n12  reply: thread 2, false\n18  reply: thread 3, true\n4 records\n",
    )?;
    check_listing(
        &rt,
        b"OBQRUv",
        "0  object: letter Q, queue\n3  criterion: letter v, causal convergence\n2 records\n",
    )?;
    check_listing(
        &rt,
        b"LV\x03wLV\x00a",
        "0  level: kind 3 (letter w, weak)\n4  level: kind 0 (letter a, complete)\n2 records\n",
    )?;
    check_listing(
        &rt,
        b"NO\x06ok ~\x7f\n",
        "0  note: \"ok ~\\x7f\\x0a\"\n1 record\n",
    )?;
    check_listing(&rt, b"NO\x02\"\\", "0  note: \"\\x22\\x5c\"\n1 record\n")
}

#[test]
fn a_note_of_several_pieces(rt: HostRuntime) -> Result<(), Fail> {
    check_listing(
        &rt,
        b"NO\x16\xff\xff\xff\xff\xff\xff\xff\xff\xff\xff\xff\xff\xff\xff\xff\xff\xffend\x00.",
        "0  note: \"\\xff\\xff\\xff\\xff\\xff\\xff\\xff\\xff\\xff\\xff\\xff\\xff\\xff\\xff\\xff\\xff\\xffend\\x00.\"\n1 record\n",
    )
}

#[test]
fn replies_that_fit_no_tag(rt: HostRuntime) -> Result<(), Fail> {
    check_listing(
        &rt,
        b"RE\x00\x09\x00\x01RE\x00\x00\x00\x01RE\x00\x02\x00\x02",
        "0  reply: thread 0, tag 9 value 1\n6  reply: thread 0, tag 0 value 1\n12  reply: thread 0, tag 2 value 2\n3 records\n",
    )
}

#[test]
fn up_to_the_first_refusal(rt: HostRuntime) -> Result<(), Fail> {
    check_listing(&rt, b"", "0 records\n")?;
    check_listing(
        &rt,
        b"OBMX",
        "0  object: letter M, map\nfault r 3 3: a single byte is left\n",
    )?;
    check_listing(&rt, b"HELLO", "fault r 4 0: no record has this mark\n")?;
    check_listing(
        &rt,
        b"OB",
        "fault r 5 0: the trace ends inside this record\n",
    )?;
    check_listing(
        &rt,
        b"OBZ",
        "fault r 6 0: an unknown letter, or a level for a kind above 7\n",
    )
}

#[test]
fn at_most_4096_bytes(rt: HostRuntime) -> Result<(), Fail> {
    let zeros = [0; 4097];
    check_listing(
        &rt,
        &zeros[0..4096],
        "fault r 4 0: no record has this mark\n",
    )?;
    match list(rt.alloc(), &zeros) {
        Ok(_) => Err(Fail::new("a trace of 4,097 bytes was listed")),
        Err(fault) => {
            let said = fault.to_string(rt.alloc())?;
            assert_eq!(rt; said.as_str(), "the trace is longer than 4,096 bytes");
            Ok(())
        }
    }
}
