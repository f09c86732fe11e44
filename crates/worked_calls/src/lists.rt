//! Bytes and lists in memory, and the law of picks at a chooser.

use bpsec_node::{Digits, laws};
use bpsec_policy::NamedKey;
use cbor_profile::{Bytes, List};
use std::test::Fail;

#[test]
fn bytes_and_lists(rt: HostRuntime) -> Result<(), Fail> {
    let alloc = rt.alloc();
    let mut bytes = Bytes::of(b"abcdef".to_vec(alloc)?);
    bytes.reserve(8)?;
    bytes.extend(b"gh")?;
    bytes.truncate(7);
    for byte in bytes.as_mut_slice().iter_mut() {
        *byte = byte.to_ascii_uppercase();
    }
    assert_eq!(rt; bytes.copy(alloc)?.as_slice(), b"ABCDEFG".as_slice());
    assert_eq!(rt; bytes.settle(3, Ok(())), Ok(()));
    assert_eq!(rt; bytes.len(), 7);
    assert_eq!(rt; bytes.into_vec().len(), 7);

    let mut list = List::of(vec![in alloc; 1u64, 2, 3]?);
    assert!(rt; list.push(4).is_ok());
    for item in list.items_mut().iter_mut() {
        *item = *item ^ 1;
    }
    assert!(rt; list.items().len() > 1);
    assert_eq!(rt; list.remove(1), 3);
    assert!(rt; list.insert(1, 9).is_ok());
    assert_eq!(rt; list.items(), [0, 9, 2, 5].as_slice());
    assert_eq!(rt; List::<u8>::new(alloc).into_vec().len(), 0);

    let key = NamedKey {
        name: Bytes::of(b"k".to_vec(alloc)?),
        key: Bytes::of(vec![in alloc; 7; 16]?),
    };
    let mut keys = List::new(alloc);
    assert!(rt; keys.push(key).is_ok());
    Ok(())
}

#[test]
fn picks_by_digits_are_legal(_rt: HostRuntime) {
    laws::picks_are_legal::<Digits>();
}
