//! Texts at the borders of units.

use crate::first_units::{first_unit, first_units};
use crate::head::{Head, TextSlot, TextSpan, Texts};
use arrayvec::ArrayVec;
use mf_base::kind::EntityKind;
use std::test::Fail;

// A head without tags.
fn bare_head() -> Head {
    Head {
        kind: EntityKind::Way,
        id: 1,
        number: 2,
        weight: 0,
        zoom: 12,
        layer: 0,
        water: false,
        label: false,
        coast: false,
        height: None,
        tags: ArrayVec::new(),
    }
}

#[test]
fn texts_stand_one_behind_another(rt: HostRuntime) -> Result<(), Fail> {
    let head = bare_head();
    let mut spans = ArrayVec::new();
    spans.push(TextSpan {
        slot: TextSlot::Name,
        start: 4,
        len: 15,
    });
    spans.push(TextSpan {
        slot: TextSlot::House,
        start: 0,
        len: 3,
    });
    let texts = Texts {
        block: b"22a.SpringfieldRoad",
        spans,
    };
    assert!(rt; first_units(&head, &texts) == 12);
    assert!(rt; first_unit(&head, &texts, 0) == [0, 0, 0, 0, 0, 0, 0, 1, 0, 0, 0, 0, 0, 0, 0, 2]);
    assert!(rt; first_unit(&head, &texts, 2) == [0, 15, 0, 3, 0, 0, 0, 0, 0, 0, 0, 0, 0, 0, 0, 0]);
    assert!(rt; first_unit(&head, &texts, 10) == *b"SpringfieldRoad2");
    assert!(rt;
        first_unit(&head, &texts, 11) == [50, 97, 0, 0, 0, 0, 0, 0, 0, 0, 0, 0, 0, 0, 0, 0]
    );
    Ok(())
}

#[test]
fn no_texts_take_no_unit(rt: HostRuntime) -> Result<(), Fail> {
    let texts = Texts {
        block: b"unused",
        spans: ArrayVec::new(),
    };
    assert!(rt; first_units(&bare_head(), &texts) == 10);
    Ok(())
}
