use lt_bloom::{Filter, stem_hash};
use std::test::Fail;

#[test]
fn hashes_known_texts(rt: HostRuntime) {
    assert_eq!(rt;
        (stem_hash(b""), stem_hash(b"a")),
        (0xcbf2_9ce4_8422_2325, 0xaf63_dc4c_8601_ec8c),
        "the hashes of nothing and of the byte 61"
    );
}

#[test]
fn filters_of_one_hash(rt: HostRuntime) -> Result<(), Fail> {
    for (stem, bytes) in [("", [0x38, 0xc6]), ("a", [0x49, 0x36])] {
        let filter = Filter::of(rt.alloc(), &[stem_hash(stem.as_bytes())])?;
        assert_eq!(rt;
            filter.as_slice(),
            bytes.as_slice(),
            "the filter over the stem {stem:?}"
        );
    }
    Ok(())
}
