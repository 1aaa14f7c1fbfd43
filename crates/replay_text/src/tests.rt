// Calls of what no program here calls: a text that is cut into its cases, and values that are whole words.
use crate::cases::Cases;
use crate::columns::{Column, Model};
use crate::tally::Counts;
use crate::text::Reader;
use crate::values::Entry;
use std::test::Fail;

#[test]
fn a_text_is_cut_into_its_cases(rt: HostRuntime) -> Result<(), Fail> {
    let mut text: &[u8] = b"\ncase nodes\nnodes 3\n\ncase other\n";
    let cases = Cases::read(&mut text, rt.alloc())?;
    assert_eq!(rt; cases.count(), 3);
    assert_eq!(rt; cases.case(0), b"".as_slice());
    assert_eq!(rt; cases.case(1), b"case nodes\nnodes 3\n".as_slice());
    assert_eq!(rt; cases.case(2), b"case other\n".as_slice());
    assert_eq!(rt; cases.case(3), b"".as_slice());
    Ok(())
}

#[test]
fn a_kind_is_a_whole_word(rt: HostRuntime) {
    let mut r = Reader::new(b"case normalise\n", Counts::new());
    assert_eq!(rt; r.kind(), b"normalise".as_slice());
    let mut r = Reader::new(b"case normalise\n", Counts::new());
    assert!(rt; r.is_kind(b"normalise"));
    assert_eq!(rt; r.end().all.differ, 0);
    let mut r = Reader::new(b"case normalise\nmore\n", Counts::new());
    assert!(rt; !r.is_kind(b"normalis"));
    assert_eq!(rt; r.counts.other.differ, 1);
    assert_eq!(rt; r.end().other.differ, 2);
}

#[test]
fn a_value_is_a_whole_word(rt: HostRuntime) {
    let mut r = Reader::new(
        b"a 12\nb 34\nc 3ff8000000000000\nd 3\ne -\nf 9\n",
        Counts::new(),
    );
    assert_eq!(rt; r.number_field(), 12);
    assert_eq!(rt; r.short_field(), 34);
    assert_eq!(rt; r.real_field(), 1.5);
    assert_eq!(rt; r.size_field(3), 3);
    assert!(rt; r.initial_field().is_none());
    assert_eq!(rt; r.initial_field().map(|s| s.0), Some(9));
    assert!(rt; r.at_end() && !r.faulty);
}

#[test]
fn what_is_no_value_is_a_fault(rt: HostRuntime) {
    for text in [
        b"a x12\n".as_slice(),
        b"a -\n",
        b"a 18446744073709551616\n",
        b"a \n",
    ] {
        let mut r = Reader::new(text, Counts::new());
        assert_eq!(rt; r.number_field(), 0);
        assert!(rt; r.faulty);
    }
    let mut r = Reader::new(b"a 4294967296\n", Counts::new());
    assert_eq!(rt; r.short_field(), 0);
    assert!(rt; r.faulty);
    let mut r = Reader::new(b"a 3ff800000000000\n", Counts::new());
    assert_eq!(rt; r.real_field(), 0.0);
    assert!(rt; r.faulty && r.at_end());
    let mut r = Reader::new(b"a 4\n", Counts::new());
    assert_eq!(rt; r.size_field(3), 0);
    assert!(rt; r.faulty);
}

#[test]
fn lists_are_read(rt: HostRuntime) {
    let mut r = Reader::new(
        b"xs 2 5 6\nys 3 010aff\nzs 1 4000000000000000\n7 8 256 9\n",
        Counts::new(),
    );
    let mut xs = [0u32; 4];
    let mut ys = [0u8; 4];
    let mut zs = Column::<f64, 2>::new();
    assert_eq!(rt; &*r.list_field(&mut xs), [5u32, 6].as_slice());
    assert_eq!(rt; &*r.hex_field(&mut ys), [1u8, 10, 255].as_slice());
    zs.fill(&mut r);
    assert_eq!(rt; zs.read(), [2.0].as_slice());
    assert_eq!(rt; u32::read(&mut r), 7);
    assert_eq!(rt; u8::read(&mut r), 8);
    assert!(rt; !r.faulty);
    assert_eq!(rt; u8::read(&mut r), 0);
    assert!(rt; r.faulty);
    assert_eq!(rt; u8::read(&mut r), 9);
    assert!(rt; r.at_end());
}

#[test]
fn a_model_is_read(rt: HostRuntime) {
    let text =
        b"states 2\nedges 1\nlabels 1\ninitial 0\nvalues 1 7\noffsets 3 0 1 1\nlabels 1 0\ntargets 1 1\nweights 1 3ff0000000000000\n";
    let mut r = Reader::new(text, Counts::new());
    let mut model = Model::new();
    model.read(&mut r);
    let lent = model.lent();
    assert_eq!(rt; lent.shape.states, 2);
    assert_eq!(rt; lent.shape.edges, 1);
    assert_eq!(rt; lent.shape.labels, 1);
    assert_eq!(rt; lent.shape.initial.map(|s| s.0), Some(0));
    assert_eq!(rt; lent.label_values, [7u32].as_slice());
    assert_eq!(rt; lent.offsets, [0u32, 1, 1].as_slice());
    assert_eq!(rt; lent.edge_labels, [0u32].as_slice());
    assert_eq!(rt; lent.edge_targets, [1u32].as_slice());
    assert_eq!(rt; lent.edge_weights, [1.0].as_slice());
    assert!(rt; r.at_end() && !r.faulty);
    let mut r = Reader::new(text, Counts::new());
    assert_eq!(rt; r.shape().states, 2);
}
