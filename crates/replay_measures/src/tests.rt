// A call of what no program here calls: a chain whose lists have room of their own.
use crate::chains::Store;
use replay_text::tally::Counts;
use replay_text::text::Reader;
use std::test::Fail;

#[test]
fn each_list_of_a_chain_has_room_of_its_own(rt: HostRuntime) -> Result<(), Fail> {
    let mut text = b"states 2\nentries 1\ninitial 1\noffsets 150".to_vec(rt.alloc())?;
    for _ in 0..150 {
        text.extend_from_slice(b" 7")?;
    }
    text.extend_from_slice(b"\ntargets 150")?;
    for _ in 0..150 {
        text.extend_from_slice(b" 8")?;
    }
    text.extend_from_slice(
        b"\nprobabilities 1 3ff0000000000000\nobservations 1 4000000000000000\n",
    )?;
    let mut store = Store::new();
    let mut r = Reader::new(&text, Counts::new());
    let chain = store.read(&mut r);
    assert_eq!(rt; chain.shape.states, 2);
    assert_eq!(rt; chain.shape.entries, 1);
    assert_eq!(rt; chain.shape.initial.0, 1);
    assert_eq!(rt; chain.offsets.len(), 150);
    assert_eq!(rt; chain.targets.len(), 150);
    assert_eq!(rt; chain.targets.last().copied(), Some(8));
    assert_eq!(rt; &*chain.probs, [1.0].as_slice());
    assert_eq!(rt; &*chain.observations, [2.0].as_slice());
    assert!(rt; r.at_end() && !r.faulty);
    let mut store = Store::new();
    let mut r = Reader::new(&text, Counts::new());
    assert_eq!(rt; store.read_together(&mut r).targets.len(), 0);
    assert!(rt; r.faulty);
    Ok(())
}
