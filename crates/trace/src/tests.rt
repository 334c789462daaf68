use crate::{
    CriterionChoice, Fault, Lettered, Level, ObjectChoice, Placed, ReadFault, Reader, Record,
    Refusal, count_records,
};
use std::process::Abort;
use std::test::Fail;

// The record at the start of some bytes.
fn first(bytes: &[u8]) -> Result<Option<Placed<'_>>, Refusal> {
    let mut reader = Reader::new(bytes);
    reader.next_record()
}

// Why some bytes are refused at their start, if they are.
fn fault(bytes: &[u8]) -> Option<ReadFault> {
    match first(bytes) {
        Ok(_) => None,
        Err(refusal) => Some(refusal.fault),
    }
}

// The length of the note at the start of some bytes.
fn note_len(bytes: &[u8]) -> Option<usize> {
    match first(bytes) {
        Ok(
            Some(
                Placed {
                    at: _,
                    record: Record::Note(text),
                },
            ),
        ) => Some(text.len()),
        _ => None,
    }
}

// A record is refused wherever the trace ends inside it: with only one byte there for that, else as a record cut off.
fn check_cuts(rt: &impl Abort, record: &[u8]) {
    assert_eq!(rt; fault(record), None);
    for n in 0..record.len() {
        let expected = match n {
            0 => None,
            1 => Some(ReadFault::OneByteLeft),
            _ => Some(ReadFault::PastEnd),
        };
        assert_eq!(rt; fault(&record[0..n]), expected);
    }
}

#[test]
fn calls_and_replies(rt: HostRuntime) {
    assert!(rt;
        matches!(
            first(b"CA\x01\x03\x12\x34\xab\xcd\x00\x05"),
            Ok(Some(Placed {
                at: 0,
                record: Record::Call {
                    thread: 1,
                    kind: 3,
                    a: 0x1234,
                    b: 0xabcd,
                    after: 5
                }
            }))
        )
    );
    assert!(rt;
        matches!(
            first(b"CA\xff\xff\xff\xff\xff\xff\xff\xffCA"),
            Ok(Some(Placed {
                at: 0,
                record: Record::Call {
                    thread: 255,
                    kind: 255,
                    a: 65535,
                    b: 65535,
                    after: 65535
                }
            }))
        )
    );
    assert!(rt;
        matches!(
            first(b"RE\x05\x02\x00\x01"),
            Ok(Some(Placed {
                at: 0,
                record: Record::Reply {
                    thread: 5,
                    tag: 2,
                    value: 1
                }
            }))
        )
    );
}

#[test]
fn after_bytes_01_02_name_8_and_1(rt: HostRuntime) {
    assert!(rt;
        matches!(
            first(b"CA\x00\x00\x00\x00\x00\x00\x01\x02"),
            Ok(Some(Placed {
                at: 0,
                record: Record::Call {
                    thread: 0,
                    kind: 0,
                    a: 0,
                    b: 0,
                    after: 0b1_0000_0010
                }
            }))
        )
    );
}

#[test]
fn choices_and_levels(rt: HostRuntime) {
    assert!(rt;
        matches!(
            first(b"OBQ"),
            Ok(Some(Placed {
                at: 0,
                record: Record::Object(ObjectChoice::Queue)
            }))
        )
    );
    assert!(rt;
        matches!(
            first(b"RUg"),
            Ok(Some(Placed {
                at: 0,
                record: Record::Criterion(CriterionChoice::MonotonicReads)
            }))
        )
    );
    assert!(rt;
        matches!(
            first(b"LV\x07c"),
            Ok(Some(Placed {
                at: 0,
                record: Record::Level {
                    kind: 7,
                    level: Level::Causal
                }
            }))
        )
    );
}

#[test]
fn notes(rt: HostRuntime) {
    assert!(rt;
        matches!(
            first(b"NO\x02hi!"),
            Ok(Some(Placed {
                at: 0,
                record: Record::Note(b"hi")
            }))
        )
    );
    assert_eq!(rt; note_len(b"NO\x00"), Some(0));
    let mut long = [b'x'; 258];
    long[0] = b'N';
    long[1] = b'O';
    long[2] = 255;
    assert_eq!(rt; note_len(&long), Some(255));
    assert_eq!(rt; fault(&long[0..257]), Some(ReadFault::PastEnd));
}

#[test]
fn cut_records(rt: HostRuntime) {
    check_cuts(&rt, b"CA\x00\x00\x00\x00\x00\x00\x00\x00");
    check_cuts(&rt, b"RE\x00\x00\x00\x00");
    check_cuts(&rt, b"OBM");
    check_cuts(&rt, b"RUl");
    check_cuts(&rt, b"LV\x00a");
    check_cuts(&rt, b"NO\x03abc");
}

#[test]
fn refusals_in_order(rt: HostRuntime) {
    assert_eq!(rt; fault(b"X"), Some(ReadFault::OneByteLeft));
    assert_eq!(rt; fault(b"CB"), Some(ReadFault::UnknownMark));
    assert_eq!(rt;
        fault(b"ca\x00\x00\x00\x00\x00\x00\x00\x00"),
        Some(ReadFault::UnknownMark)
    );
    assert_eq!(rt; fault(b"LV\x08"), Some(ReadFault::PastEnd));
    assert_eq!(rt; fault(b"LV\x08a"), Some(ReadFault::BadLetter));
    assert_eq!(rt; fault(b"LV\x07a"), None);
    assert_eq!(rt; fault(b"LV\x07A"), Some(ReadFault::BadLetter));
    assert_eq!(rt; fault(b"OBm"), Some(ReadFault::BadLetter));
    assert_eq!(rt; fault(b"RUw"), Some(ReadFault::BadLetter));
    assert_eq!(rt; ReadFault::OneByteLeft.number(), 3);
    assert_eq!(rt; ReadFault::UnknownMark.number(), 4);
    assert_eq!(rt; ReadFault::PastEnd.number(), 5);
    assert_eq!(rt; ReadFault::BadLetter.number(), 6);
}

#[test]
fn each_letter_and_no_other(rt: HostRuntime) {
    for b in 0..=255u8 {
        let object = match b {
            b'M' => Some(ObjectChoice::Map),
            b'Q' => Some(ObjectChoice::Queue),
            _ => None,
        };
        assert_eq!(rt; ObjectChoice::from_letter(b), object);
        let criterion = match b {
            b'g' => Some(CriterionChoice::MonotonicReads),
            b'l' => Some(CriterionChoice::Levels),
            b'r' => Some(CriterionChoice::ReadMyWrites),
            b'v' => Some(CriterionChoice::CausalConvergence),
            _ => None,
        };
        assert_eq!(rt; CriterionChoice::from_letter(b), criterion);
        let level = match b {
            b'a' => Some(Level::Complete),
            b'b' => Some(Level::Basic),
            b'c' => Some(Level::Causal),
            b'm' => Some(Level::Monotonic),
            b'p' => Some(Level::Peer),
            b'w' => Some(Level::Weak),
            _ => None,
        };
        assert_eq!(rt; Level::from_letter(b), level);
    }
}

#[test]
fn names_and_reasons(rt: HostRuntime) -> Result<(), Fail> {
    let heap = rt.alloc();
    let object = ObjectChoice::Queue.to_string(heap)?;
    assert_eq!(rt; object.as_str(), "queue");
    let criterion = CriterionChoice::CausalConvergence.to_string(heap)?;
    assert_eq!(rt; criterion.as_str(), "causal convergence");
    let level = Level::Complete.to_string(heap)?;
    assert_eq!(rt; level.as_str(), "complete");
    let reason = ReadFault::PastEnd.to_string(heap)?;
    assert_eq!(rt; reason.as_str(), "the trace ends inside this record");
    Ok(())
}

#[test]
fn stays_at_a_refused_record(rt: HostRuntime) {
    let mut reader = Reader::new(b"OBMLV\x08aOBQ");
    assert!(rt;
        matches!(
            reader.next_record(),
            Ok(Some(Placed {
                at: 0,
                record: Record::Object(ObjectChoice::Map)
            }))
        )
    );
    for _ in 0..3 {
        assert!(rt;
            matches!(
                reader.next_record(),
                Err(Refusal {
                    at: 3,
                    fault: ReadFault::BadLetter
                })
            )
        );
        assert_eq!(rt; reader.position(), 3);
    }
}

#[test]
fn whole_traces(rt: HostRuntime) {
    assert_eq!(rt; count_records(b""), Ok(0));
    assert_eq!(rt; count_records(b"OBMRUlNO\x00"), Ok(3));
    assert_eq!(rt;
        count_records(b"OBMRUlN"),
        Err(Refusal {
            at: 6,
            fault: ReadFault::OneByteLeft,
        })
    );
    assert_eq!(rt;
        count_records(b"OBMOBXOBQ"),
        Err(Refusal {
            at: 3,
            fault: ReadFault::BadLetter,
        })
    );
}
