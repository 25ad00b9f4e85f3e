//! Entries and values of each kind, nested contents and refusals, on bytes that are known by hand.

use amqp_entries::{
    ArrayValue, ByteArrayValue, DoubleValue, FloatValue, LongStringValue, PutError, TableContent,
    TableValue, TimestampValue, ToValue, VoidValue, append_entry, append_value,
};
use amqp_types::{DecimalValue, ParserError};

/// Whether a value is appended as these bytes to an array, and after the key `k` to a table.
fn appends<V: ToValue>(value: &V, wanted: &[u8]) -> bool {
    let mut out = [99; 30];
    let end = 3 + wanted.len();
    let put = append_value(&mut out, 3, value) == Ok(end) && out.get(3..end) == Some(wanted);
    let mut entry = [99; 30];
    let entry_put = append_entry(&mut entry, 3, b"k", value) == Ok(end + 2)
        && entry.get(3..5) == Some(&[1, 107])
        && entry.get(5..end + 2) == Some(wanted);
    let kept = out.get(..3) == Some(&[99; 3]) && out.get(end) == Some(&99);
    let entry_kept = entry.get(..3) == Some(&[99; 3]) && entry.get(end + 2) == Some(&99);
    put && entry_put && kept && entry_kept
}

#[test]
fn each_kind_is_appended(rt: HostRuntime) {
    assert!(rt; appends(&true, &[116, 1]) && appends(&false, &[116, 0]));
    assert!(rt; appends(&-2i8, &[98, 254]) && appends(&200u8, &[66, 200]));
    assert!(rt; appends(&-2i16, &[115, 255, 254]) && appends(&258u16, &[117, 1, 2]));
    assert!(rt; appends(&-2i32, &[73, 255, 255, 255, 254]));
    assert!(rt; appends(&16_909_060u32, &[105, 1, 2, 3, 4]));
}

#[test]
fn each_longer_kind_is_appended(rt: HostRuntime) {
    assert!(rt; appends(&-2i64, &[108, 255, 255, 255, 255, 255, 255, 255, 254]));
    assert!(rt;
        appends(
            &FloatValue {
                bits: 1_065_353_216
            },
            &[102, 63, 128, 0, 0]
        )
    );
    assert!(rt;
        appends(
            &DoubleValue {
                bits: 4_607_182_418_800_017_408
            },
            &[100, 63, 240, 0, 0, 0, 0, 0, 0]
        )
    );
    assert!(rt;
        appends(
            &DecimalValue {
                scale: 2,
                value: 258
            },
            &[68, 2, 0, 0, 1, 2]
        )
    );
    assert!(rt;
        appends(
            &TimestampValue { seconds: 9 },
            &[84, 0, 0, 0, 0, 0, 0, 0, 9]
        )
    );
    assert!(rt;
        appends(
            &LongStringValue { bytes: &[104, 255] },
            &[83, 0, 0, 0, 2, 104, 255]
        )
    );
    assert!(rt; appends(&ByteArrayValue { bytes: &[98] }, &[120, 0, 0, 0, 1, 98]));
    assert!(rt; appends(&VoidValue, &[86]));
}

#[test]
fn nested_contents_are_put_canonically(rt: HostRuntime) {
    // In ascending key order, in another one, and with a key twice.
    let table = TableValue::new(&[1, 97, 86, 1, 98, 86]);
    assert!(rt; appends(&table, &[70, 0, 0, 0, 6, 1, 97, 86, 1, 98, 86]));
    let table = TableValue::new(&[1, 98, 86, 1, 97, 86]);
    assert!(rt; appends(&table, &[70, 0, 0, 0, 6, 1, 97, 86, 1, 98, 86]));
    let table = TableValue::new(&[1, 97, 116, 0, 1, 97, 116, 7]);
    assert!(rt; appends(&table, &[70, 0, 0, 0, 4, 1, 97, 116, 1]));
    // A truth value that is no 1, and a tag that is only read.
    let array = ArrayValue::new(&[116, 7, 85, 1, 2]);
    assert!(rt; appends(&array, &[65, 0, 0, 0, 5, 116, 1, 115, 1, 2]));
    assert!(rt; appends(&ArrayValue::new(&[]), &[65, 0, 0, 0, 0]));
}

/// Whether an entry is refused so, and the slice kept.
fn refuses<V: ToValue>(at: usize, key: &[u8], value: &V, flaw: PutError) -> bool {
    let mut out = [99; 10];
    append_entry(&mut out, at, key, value) == Err(flaw) && out == [99; 10]
}

#[test]
fn refusals_come_from_left_to_right(rt: HostRuntime) {
    let short = TableValue::new(&[1]);
    let unknown = ArrayValue::new(&[90]);
    assert!(rt; refuses(0, &[97; 256], &short, PutError::TooLong));
    assert!(rt; refuses(0, &[255], &short, PutError::NotUtf8));
    assert!(rt;
        refuses(
            20,
            b"k",
            &short,
            PutError::Content(ParserError::ShortPayload)
        )
    );
    assert!(rt;
        refuses(
            20,
            b"k",
            &unknown,
            PutError::Content(ParserError::UnknownTag)
        )
    );
    assert!(rt; refuses(5, b"key", &true, PutError::BufferTooSmall(11)));
    assert!(rt; refuses(10, b"", &VoidValue, PutError::BufferTooSmall(12)));
    assert!(rt; refuses(20, b"k", &VoidValue, PutError::BufferTooSmall(23)));
    assert!(rt;
        refuses(
            usize::MAX,
            b"k",
            &VoidValue,
            PutError::BufferTooSmall(usize::MAX)
        )
    );
    let table = TableContent::new(&[1, 255, 86]);
    assert!(rt; table.measure() == Err(PutError::Content(ParserError::NotUtf8)));
}
