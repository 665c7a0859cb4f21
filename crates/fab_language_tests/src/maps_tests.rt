//! A map of a few objects.

use fab_base::{Object, Oid, Seq};
use fab_map::ObjectMap;
use std::alloc::Global;
use std::test::Fail;

fn name(number: u32) -> Oid {
    Oid {
        store: 1,
        class: 2,
        worker: 65535,
        boot: 0,
        number,
        site: 65535,
        index: 0,
    }
}

fn thing(alloc: Global, class: u16) -> Object {
    Object {
        class,
        fields: Seq::new(alloc),
    }
}

fn is_of(found: Option<&Object>, class: u16) -> bool {
    match found {
        Some(object) => object.class == class,
        None => false,
    }
}

#[test]
fn the_last_object_of_a_name_is_found(rt: HostRuntime) -> Result<(), Fail> {
    let mut map = ObjectMap::new(rt.alloc());
    for (number, class) in [(7, 1), (4, 2), (7, 3)] {
        map.put(name(number), thing(rt.alloc(), class))?;
    }
    assert!(rt; is_of(map.get(name(7)), 3));
    assert!(rt; is_of(map.get(name(4)), 2));
    assert_eq!(rt; map.into_rows().len(), 2);
    Ok(())
}
