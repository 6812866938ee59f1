use super::*;
use std::test::*;

// The expected values are those of MessagePack, "Formats": the bounds of each form, and values in a longer form.

#[test]
fn an_integer_is_read_in_every_width(rt: HostRuntime) {
    let spelled: [(&[u8], i128); 16] = [
        (b"\x00", 0),
        (b"\x7f", 127),
        (b"\xe0", -32),
        (b"\xff", -1),
        (b"\xcc\xff", 255),
        (b"\xcd\xff\xff", 65_535),
        (b"\xce\x02\xee\xd2\xf0", 49_206_000),
        (b"\xce\xff\xff\xff\xff", 4_294_967_295),
        (
            b"\xcf\xff\xff\xff\xff\xff\xff\xff\xff",
            18_446_744_073_709_551_615,
        ),
        (b"\xd0\x80", -128),
        (b"\xd0\x7f", 127),
        (b"\xd1\x80\x00", -32_768),
        (b"\xd2\x80\x00\x00\x00", -2_147_483_648),
        (
            b"\xd3\x80\x00\x00\x00\x00\x00\x00\x00",
            -9_223_372_036_854_775_808,
        ),
        (b"\xd3\x00\x00\x00\x00\x02\xee\xd2\xf0", 49_206_000),
        (b"\xcf\x00\x00\x00\x00\x00\x00\x00\x00", 0),
    ];
    for (bytes, value) in spelled {
        let mut reader = Reader::new(bytes);
        assert_eq!(rt; reader.int(), Ok(value));
        assert_eq!(rt; reader.end(), Ok(()));
    }
}

#[test]
fn a_text_is_read_in_every_width(rt: HostRuntime) {
    let spelled: [(&[u8], &[u8]); 5] = [
        (b"\xa0", b""),
        (b"\xa2\xc3\xa4", b"\xc3\xa4"),
        (b"\xd9\x01a", b"a"),
        (b"\xda\x00\x01a", b"a"),
        (b"\xdb\x00\x00\x00\x01a", b"a"),
    ];
    for (bytes, text) in spelled {
        let mut reader = Reader::new(bytes);
        assert_eq!(rt; reader.text(), Ok(text));
        assert_eq!(rt; reader.end(), Ok(()));
    }
}

#[test]
fn a_header_is_read_in_every_width(rt: HostRuntime) {
    let spelled: [(&[u8], u32); 4] = [
        (b"\x90", 0),
        (b"\x9f", 15),
        (b"\xdc\xff\xff", 65_535),
        (b"\xdd\xff\xff\xff\xff", 4_294_967_295),
    ];
    for (bytes, count) in spelled {
        let mut reader = Reader::new(bytes);
        assert_eq!(rt; reader.array(), Ok(count));
        assert_eq!(rt; reader.end(), Ok(()));
    }
}

#[test]
fn what_is_cut_or_another_item_is_refused(rt: HostRuntime) {
    // nothing, items that are cut, texts that are not UTF-8, and the first bytes of nil, of a bin, of a float, of a map
    // and of none
    let refused: [&[u8]; 16] = [
        b"",
        b"\xcc",
        b"\xcd\x00",
        b"\xce\x00\x00\x00",
        b"\xd3\x00\x00\x00\x00\x00\x00\x00",
        b"\xa2a",
        b"\xd9",
        b"\xdb\xff\xff\xff\xffa",
        b"\xa1\xff",
        b"\xa2\xc3\x28",
        b"\xdc\x00",
        b"\xc0",
        b"\xc4\x00",
        b"\xca\x00\x00\x00\x00",
        b"\x80",
        b"\xc1",
    ];
    for bytes in refused {
        let mut reader = Reader::new(bytes);
        assert_eq!(rt; reader.int(), Err(Wrong { place: 0 }));
        assert_eq!(rt; reader.text(), Err(Wrong { place: 0 }));
        assert_eq!(rt; reader.array(), Err(Wrong { place: 0 }));
        assert_eq!(rt; reader.place(), 0);
    }
}

#[test]
fn a_refused_read_tells_its_place_and_stays(rt: HostRuntime) {
    let mut reader = Reader::new(b"\x92\xa1a\xff");
    assert_eq!(rt; reader.array(), Ok(2));
    assert_eq!(rt; reader.int(), Err(Wrong { place: 1 }));
    assert_eq!(rt; reader.text(), Ok(b"a".as_slice()));
    assert_eq!(rt; reader.text(), Err(Wrong { place: 3 }));
    assert_eq!(rt; reader.end(), Err(Wrong { place: 3 }));
    assert_eq!(rt; reader.int(), Ok(-1));
    assert_eq!(rt; reader.place(), 4);
    assert_eq!(rt; reader.end(), Ok(()));
}

#[test]
fn a_number_is_written_in_its_shortest_form(rt: HostRuntime) -> Result<(), Fail> {
    let mut writer = Writer::new(rt.alloc());
    writer.int(127)?;
    writer.int(128)?;
    writer.int(256)?;
    writer.int(65_535)?;
    writer.int(49_206_000)?;
    writer.int(4_294_967_296)?;
    assert_eq!(rt;
        writer.into_bytes().as_slice(),
        b"\x7f\xcc\x80\xcd\x01\x00\xcd\xff\xff\xce\x02\xee\xd2\xf0\xcf\x00\x00\x00\x01\x00\x00\x00\x00".as_slice()
    );
    Ok(())
}

#[test]
fn a_negative_number_is_written_in_its_shortest_form(rt: HostRuntime) -> Result<(), Fail> {
    let mut writer = Writer::new(rt.alloc());
    writer.int(-1)?;
    writer.int(-32)?;
    writer.int(-33)?;
    writer.int(-129)?;
    writer.int(-32_769)?;
    writer.int(-2_147_483_649)?;
    assert_eq!(rt;
        writer.into_bytes().as_slice(),
        b"\xff\xe0\xd0\xdf\xd1\xff\x7f\xd2\xff\xff\x7f\xff\xd3\xff\xff\xff\xff\x7f\xff\xff\xff".as_slice()
    );
    Ok(())
}

#[test]
fn texts_and_headers_are_written_behind_what_stands(rt: HostRuntime) -> Result<(), Fail> {
    let mut writer = Writer::after(Bytes::copied(rt.alloc(), b"before")?);
    writer.array(15)?;
    writer.text("ä".as_bytes())?;
    writer.array(16)?;
    writer.text("0123456789abcdef0123456789abcdef".as_bytes())?;
    writer.array(65_536)?;
    assert_eq!(rt;
        writer.into_bytes().as_slice(),
        b"before\x9f\xa2\xc3\xa4\xdc\x00\x10\xd9\x200123456789abcdef0123456789abcdef\xdd\x00\x01\x00\x00".as_slice()
    );
    Ok(())
}

#[test]
fn a_bin_is_read_in_every_width(rt: HostRuntime) {
    let spelled: [(&[u8], &[u8]); 4] = [
        (b"\xc4\x00", b""),
        (b"\xc4\x02\xff\x00", b"\xff\x00"),
        (b"\xc5\x00\x01a", b"a"),
        (b"\xc6\x00\x00\x00\x01a", b"a"),
    ];
    for (bytes, held) in spelled {
        let mut reader = Reader::new(bytes);
        assert_eq!(rt; reader.bin(), Ok(held));
        assert_eq!(rt; reader.end(), Ok(()));
    }
    // nothing, bins that are cut, and a text
    let refused: [&[u8]; 6] = [
        b"",
        b"\xc4",
        b"\xc4\x01",
        b"\xc5\x00",
        b"\xc6\xff\xff\xff\xffa",
        b"\xa1a",
    ];
    for bytes in refused {
        assert_eq!(rt; Reader::new(bytes).bin(), Err(Wrong { place: 0 }));
    }
}

#[test]
fn nil_is_read_where_it_may_stand(rt: HostRuntime) {
    let mut reader = Reader::new(b"\xc0\x07\xc0\xa1a\xff");
    assert_eq!(rt; reader.nil_or_text(), Ok(None));
    assert_eq!(rt; reader.nil_or_text(), Err(Wrong { place: 1 }));
    assert_eq!(rt; reader.nil_or_u64(), Ok(Some(7)));
    assert_eq!(rt; reader.nil_or_u64(), Ok(None));
    assert_eq!(rt; reader.nil_or_u64(), Err(Wrong { place: 3 }));
    assert_eq!(rt; reader.nil_or_text(), Ok(Some(b"a".as_slice())));
    assert_eq!(rt; reader.nil_or_u64(), Err(Wrong { place: 5 }));
    let mut greatest = Reader::new(b"\xcf\xff\xff\xff\xff\xff\xff\xff\xff");
    assert_eq!(rt; greatest.nil_or_u64(), Ok(Some(u64::MAX)));
}

#[test]
fn named_forms_bins_and_nil_are_written(rt: HostRuntime) -> Result<(), Fail> {
    let mut writer = Writer::new(rt.alloc());
    writer.u8_form(0)?;
    writer.u16_form(1)?;
    writer.u64_form(49_206_000)?;
    writer.bin(b"\xff")?;
    writer.bin_head(256)?;
    writer.bin_head(65_536)?;
    writer.nil()?;
    assert_eq!(rt;
        writer.into_bytes().as_slice(),
        b"\xcc\x00\xcd\x00\x01\xcf\x00\x00\x00\x00\x02\xee\xd2\xf0\xc4\x01\xff\xc5\x01\x00\xc6\x00\x01\x00\x00\xc0".as_slice()
    );
    Ok(())
}
