//! That bodies are made and prepared, and what is read after a write over the end of a page.

use page_store::Body;

#[test]
fn bytes_over_the_end_of_a_page(rt: HostRuntime) {
    let made = Body::new(rt.alloc());
    assert!(rt; made.is_ok());
    if let Ok(mut body) = made {
        assert!(rt; body.prepare(4094, 4).is_ok());
        body.write(4094, b"abcd");
        assert!(rt; body.read(4093, 6).as_slice() == b"\0abcd\0".as_slice());
        body.clear();
        assert!(rt; body.read(4095, 2).as_slice() == b"\0\0".as_slice());
    }
}
