//! A mapping that is read from a file of TOML.

ghost use Rattle.std.specs.Prelude.{◌≡◌, ◌≤◌, ◌∷◌, [], map, codes, length, is_some, option_map, string_bytes, IfOk};
ghost use Rattle.std.specs.Prelude.{IfErr, Ok, Some};
ghost use Rattle.std.specs.BTreeMap.{keys};
ghost use Rattle.std.specs.List.{list_all, AllByRecursion};
ghost use Rattle.toml.specs.Data.{as_table};
ghost use Rattle.toml.specs.View.{table_view, view};
ghost use Rattle.mf_base.specs.Texts.{is_among};
ghost use Rattle.feature_model.specs.Entries.{entries_behind, mapping_told, IsTold};
ghost use Rattle.tag_mapping.specs.File as spec;
ghost use Rattle.tag_mapping.specs.File.{mapping_of, told_items, lists_of};
ghost use Rattle.tag_mapping.specs.Shown.{IsFaultOf};

use crate::MappingFault;
use crate::entries::Entries;
use crate::mapping::Mapping;
use crate::told::{member, told_entry};
use mf_base::kind::List;
use std::alloc::Global;
use toml::{Table, Value};

// A list has at most this many entries.
const ENTRIES_LIMIT: usize = 4096;

/// Reads the mapping of a file. The first fault is told: that it is no TOML, that its top is not of the right shape,
/// that a
/// list is too long, and then those of the entries in order, where `poi` comes first. Memory may be wanting at any
/// time.
pub fn read_mapping(alloc: Global, bytes: &[u8]) -> Result<Mapping, MappingFault>
    ensures mapping { IfOk result (λ m. mapping_of bytes.now ≡ Ok m) }
    ensures refused { IfErr result (IsFaultOf (mapping_of bytes.now)) }
{
    match toml::table_from_slice(alloc, bytes) {
        Ok(top) => mapping_in(alloc, &top),
        Err(fault) if fault.is_memory() => Err(MappingFault::Memory),
        Err(_) => Err(MappingFault::Toml),
    }
}

// The mapping of a document.
fn mapping_in(alloc: Global, top: &Table) -> Result<Mapping, MappingFault>
    ensures mapping { IfOk result (λ m. spec.mapping_in (table_view top.now) ≡ Ok m) }
    ensures refused { IfErr result (IsFaultOf (spec.mapping_in (table_view top.now))) }
{
    match lists_in(top) {
        Some((poi, way)) => mapping_of_lists(alloc, poi, way),
        None => Err(MappingFault::Shape),
    }
}

// The mapping of two lists.
fn mapping_of_lists(alloc: Global, poi: &[Value], way: &[Value]) -> Result<Mapping, MappingFault>
    ensures mapping { IfOk result
        (λ m. mapping_told (told_items List.Poi (map view poi.now)) (told_items List.Way (map view way.now)) ≡ Ok m) }
    ensures refused { IfErr result
        (IsFaultOf (mapping_told (told_items List.Poi (map view poi.now)) (told_items List.Way (map view way.now)))) }
{
    if ENTRIES_LIMIT < poi.len() {
        return Err(MappingFault::TooMany { list: List::Poi });
    }
    if ENTRIES_LIMIT < way.len() {
        return Err(MappingFault::TooMany { list: List::Way });
    }
    let poi_entries = entries_in(alloc, List::Poi, poi)?;
    let way_entries = entries_in(alloc, List::Way, way)?;
    Ok(Mapping::new(poi_entries, way_entries))
}

// The entries of a list.
fn entries_in(alloc: Global, list: List, items: &[Value]) -> Result<Entries, MappingFault>
    requires { length items.now ≤ 4096 }
    ensures entries { IfOk result (λ es. entries_behind list [] (told_items list (map view items.now)) ≡ Ok es) }
    ensures told { IfOk result (λ es. AllByRecursion IsTold (told_items list (map view items.now))) }
    ensures refused { IfErr result (IsFaultOf (entries_behind list [] (told_items list (map view items.now)))) }
{
    let mut entries = Entries::new(alloc);
    for item in items {
        entries.add(alloc, list, told_entry(list, item))?;
    }
    Ok(entries)
}

// The two lists of a document, where its top is of the right shape.
fn lists_in(top: &Table) -> Option<(&[Value], &[Value])>
    ensures { option_map (λ p. (map view p.0.now, map view p.1.now)) result ≡ lists_of (table_view top.now) }
{
    if !has_only_lists(top) {
        return None;
    }
    let poi = tables_in(member(top, "poi"))?;
    let way = tables_in(member(top, "way"))?;
    Some((poi, way))
}

// Whether a document has no keys but those of the lists.
fn has_only_lists(top: &Table) -> bool
    ensures { result ≡ list_all (λ name. is_among (codes "poi" ∷ codes "way" ∷ []) (string_bytes name)) (keys top.now) }
{
    top.keys().all(|name| is_list(name.as_str()))
}

// Whether a list has this name.
fn is_list(name: &str) -> bool
    ensures { result ≡ is_among (codes "poi" ∷ codes "way" ∷ []) name.now }
{
    matches!(name, "poi" | "way")
}

// The items of a list, which are tables. A list that is missing is empty.
fn tables_in(list: Option<&Value>) -> Option<&[Value]>
    ensures { option_map (λ items. map view items.now) result
        ≡ spec.tables_in (option_map (λ v. view v.now) list.entry) }
{
    let Some(value) = list else {
        return Some(&[]);
    };
    let items = items_in(value)?;
    if are_tables(items) { Some(items) } else { None }
}

// The items of an array.
fn items_in(value: &Value) -> Option<&[Value]>
    ensures { option_map (λ items. map view items.now) result ≡ spec.items_in (view value.now) }
{
    match value.as_array() {
        Some(items) => Some(items.as_slice()),
        None => None,
    }
}

// Whether all items are tables.
fn are_tables(items: &[Value]) -> bool
    ensures { result ≡ list_all (λ value. is_some (as_table (view value))) items.now }
{
    items.iter().all(|item| item.is_table())
}

#[cfg(test)]
mod tests {
    use super::*;
    use std::fmt::{Error, Write};
    use std::test::Fail;

    const FIRST_POI: MappingFault = MappingFault::Entry {
        list: List::Poi,
        index: 0,
    };

    // A file, and why it is no mapping: from the order of the faults.
    const FILES: [(&[u8], Option<MappingFault>); 25] = [
        (b"", None),
        (b"poi = []\n", None),
        (b"poi", Some(MappingFault::Toml)),
        (b"a = 1\na = 2\n", Some(MappingFault::Toml)),
        (&[255], Some(MappingFault::Toml)),
        (b"tiles = []\n", Some(MappingFault::Shape)),
        (b"poi = 1\n", Some(MappingFault::Shape)),
        (b"poi = [{}, 1]\n", Some(MappingFault::Shape)),
        (b"[poi]\n", Some(MappingFault::Shape)),
        (b"[[way]]\n[other]\n", Some(MappingFault::Shape)),
        (b"poi = [{}]\n", Some(FIRST_POI)),
        (b"[[way]]\n[[poi]]\n", Some(FIRST_POI)),
        (
            b"poi = [{key = \"a\", value = \"b\", zoom = 5.0}]\n",
            Some(FIRST_POI),
        ),
        (
            b"poi = [{key = \"a\", value = \"b\", zoom = true}]\n",
            Some(FIRST_POI),
        ),
        (
            b"poi = [{key = \"a\", value = \"b\", zoom = 22}]\n",
            Some(FIRST_POI),
        ),
        (
            b"poi = [{key = \"a\", value = \"b\", zoom = -1}]\n",
            Some(FIRST_POI),
        ),
        (
            b"poi = [{key = \"a=\", value = \"b\", zoom = 5}]\n",
            Some(FIRST_POI),
        ),
        (
            b"poi = [{key = \"\", value = \"b\", zoom = 5}]\n",
            Some(FIRST_POI),
        ),
        (
            b"poi = [{key = \"a\", value = \"b\", zoom = 5, water = true}]\n",
            Some(FIRST_POI),
        ),
        (
            b"way = [{key = \"a\", value = \"b\", zoom = 5, label = 1}]\n",
            Some(MappingFault::Entry {
                list: List::Way,
                index: 0,
            }),
        ),
        (
            b"way = [{key = \"a\", value = \"b\", zoom = 5, colour = 1}]\n",
            Some(MappingFault::Entry {
                list: List::Way,
                index: 0,
            }),
        ),
        (
            b"[[poi]]\nkey = \"ele\"\nvalue = \"%f\"\nzoom = 17\n",
            Some(MappingFault::Kind {
                list: List::Poi,
                index: 0,
            }),
        ),
        (
            b"way = [{key = \"a:colour:b\", value = \"%i\", zoom = 5}]\n",
            Some(MappingFault::Kind {
                list: List::Way,
                index: 0,
            }),
        ),
        (
            b"[[poi]]\nkey = \"a\"\nvalue = \"b\"\nzoom = 9\n[[poi]]\nkey = \"a\"\nvalue = \"b\"\nzoom = 5\n",
            Some(MappingFault::Twice {
                list: List::Poi,
                index: 1,
            }),
        ),
        (
            b"way = [{key = \"a\", value = \"b\", zoom = 5}, {key = \"a\", value = \"b\", zoom = 6, water = true}]\n",
            Some(MappingFault::Twice {
                list: List::Way,
                index: 1,
            }),
        ),
    ];

    #[test]
    fn files_and_their_faults(rt: HostRuntime) {
        for (bytes, fault) in FILES {
            assert_eq!(rt;
                read_mapping(rt.alloc(), bytes).err(),
                fault,
                "in {bytes:?}"
            );
        }
    }

    // A file with so many entries in each list.
    fn long_file(alloc: Global, poi: usize, way: usize) -> Result<String, Error> {
        let mut text = String::new(alloc);
        for (list, count) in [("poi", poi), ("way", way)] {
            for index in 0..count {
                write!(
                    text,
                    "[[{list}]]\nkey = 'a'\nvalue = 'b{index}'\nzoom = 5\n"
                )?;
            }
        }
        Ok(text)
    }

    // How many entries each list has, and the fault of a file with one more in one list or in both.
    const LENGTHS: [(usize, usize, Option<MappingFault>); 4] = [
        (4096, 4096, None),
        (4097, 4097, Some(MappingFault::TooMany { list: List::Poi })),
        (4097, 0, Some(MappingFault::TooMany { list: List::Poi })),
        (0, 4097, Some(MappingFault::TooMany { list: List::Way })),
    ];

    #[test]
    fn long_lists(rt: HostRuntime) -> Result<(), Fail> {
        for (poi, way, fault) in LENGTHS {
            let file = long_file(rt.alloc(), poi, way)?;
            let read = read_mapping(rt.alloc(), file.as_bytes());
            assert_eq!(rt; read.err(), fault, "of {poi} and {way}");
        }
        Ok(())
    }

    #[test]
    fn both_lists(rt: HostRuntime) -> Result<(), Fail> {
        let bytes =
            b"[[way]]\nkey = \"natural\"\nvalue = \"wood\"\nzoom = 9\n[[poi]]\nkey = \"a\"\nvalue = \"%s\"\nzoom = 0\n";
        let mapping = read_mapping(rt.alloc(), bytes)?;
        assert_eq!(rt; mapping.tag_count(List::Poi), 1);
        assert_eq!(rt; mapping.tag_count(List::Way), 1);
        assert_eq!(rt; mapping.key(List::Way, 0), b"natural".as_slice());
        assert_eq!(rt; mapping.tag_size(List::Way, 0), 13);
        Ok(())
    }
}
