use psac_base::{DirShelf, Shelf, ShelfFault};
use std::fs;
use std::test::Fail;

const NAME: &str = "psac_base_dir_shelf_test.txt";

#[test]
fn a_shelf_over_files(rt: HostRuntime) -> Result<(), Fail> {
    let alloc = rt.alloc();
    fs::write(&rt, NAME, b"12345".as_slice())?;
    let mut shelf = DirShelf::new(&rt);
    for most in [5, 6, u64::MAX] {
        match shelf.load(alloc, NAME, most) {
            Ok(bytes) => assert_eq!(rt; bytes.as_slice(), b"12345".as_slice()),
            Err(fault) => assert_eq!(rt; Some(fault), None, "at {most}"),
        }
    }
    assert_eq!(rt;
        shelf.load(alloc, NAME, 4).err(),
        Some(ShelfFault::TooLarge)
    );
    fs::remove_file(&rt, NAME)?;
    assert_eq!(rt; shelf.load(alloc, NAME, 5).err(), Some(ShelfFault::Failed));
    assert_eq!(rt; shelf.load(alloc, ".", 5).err(), Some(ShelfFault::Failed));
    Ok(())
}
