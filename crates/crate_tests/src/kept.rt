//! `catalog`: a catalog of the streams that places kept.

use catalog::Catalog;
use js_base::{Blob, List, Name};
use js_model::{KeptPlace, PlaceAt};
use std::test::Fail;

#[test]
#[tactic(auto, using(catalog::proofs::Scripts::one_kept_apart))]
fn kept_streams_are_found(rt: HostRuntime) -> Result<(), Fail> {
    let alloc = rt.alloc();
    let mut subjects = List::new(alloc);
    subjects.push(Blob::of(alloc, b"a.*")?)?;
    let kept = [
        KeptPlace {
            incarnation: 3,
            stream: Some((Name::read(alloc, b"A")?, subjects)),
        },
        KeptPlace {
            incarnation: 5,
            stream: None,
        },
    ];
    let catalog = Catalog::of(alloc, &kept)?;
    let found = PlaceAt {
        place: 0,
        incarnation: 3,
    };
    assert_eq!(rt; catalog.find(b"a.x"), Some(found));
    assert_eq!(rt; catalog.next_used(0), Some(found));
    Ok(())
}
