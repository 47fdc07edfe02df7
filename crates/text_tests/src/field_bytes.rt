use fields::{Reader, Short, Writer};
use std::test::Fail;

#[test]
fn fields_come_back(rt: HostRuntime) -> Result<(), Fail> {
    let mut writer = Writer::new(rt.alloc());
    writer.put_u8(7)?;
    writer.put_u16(0x0102)?;
    writer.put_u32(0x0304_0506)?;
    writer.put_u64(0x0708_090a_0b0c_0d0e)?;
    writer.put_bytes(b"end")?;
    let bytes = writer.finish();
    assert_eq!(rt;
        bytes.as_slice(),
        b"\x07\x01\x02\x03\x04\x05\x06\x07\x08\x09\x0a\x0b\x0c\x0d\x0eend".as_slice()
    );

    let mut reader = Reader::new(bytes.as_slice());
    assert_eq!(rt; reader.u8(), Ok(7));
    assert_eq!(rt; reader.u16(), Ok(0x0102));
    assert_eq!(rt; reader.u32(), Ok(0x0304_0506));
    assert_eq!(rt; reader.u64(), Ok(0x0708_090a_0b0c_0d0e));
    assert_eq!(rt; reader.u32(), Err(Short { need: 4, left: 3 }));
    assert_eq!(rt; reader.place(), 15);
    Ok(())
}
