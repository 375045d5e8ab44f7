//! Shapes of objects: those of arrays of any length are kept whole.
use hd_shapes::{Shape, Shapes};
use std::process::Abort;

/// The bytes that are recorded of an object array, if an object is one.
fn object_bytes(shapes: &Shapes, o: u32) -> Option<u32> {
    if (o as usize) >= shapes.len() {
        return None;
    }
    match shapes.get(o) {
        Shape::ObjectArray { bytes } => Some(bytes),
        _ => None,
    }
}

/// The type of the elements of a primitive array and the bytes that are recorded of it, if an object is one.
fn primitive_bytes(shapes: &Shapes, o: u32) -> Option<(u8, u32)> {
    if (o as usize) >= shapes.len() {
        return None;
    }
    match shapes.get(o) {
        Shape::PrimitiveArray { element, bytes } => Some((element, bytes)),
        _ => None,
    }
}

/// Adds an object array of `bytes` bytes.
fn push_object_array<R: Abort>(rt: &R, shapes: &mut Shapes, bytes: u32) {
    shapes
        .push_object_array(bytes)
        .expect(rt, "the array is added");
}

/// Adds a primitive array of `bytes` bytes.
fn push_primitive_array<R: Abort>(rt: &R, shapes: &mut Shapes, element: u8, bytes: u32) {
    shapes
        .push_primitive_array(element, bytes)
        .expect(rt, "the array is added");
}

#[test]
fn bytes_of_object_arrays(rt: HostRuntime) {
    let mut shapes = Shapes::with_capacity(rt.alloc(), 4, 0).expect(&rt, "a list is made");
    push_object_array(&rt, &mut shapes, 0);
    push_object_array(&rt, &mut shapes, 1_073_741_823);
    push_object_array(&rt, &mut shapes, 1_073_741_824);
    push_object_array(&rt, &mut shapes, 2_147_483_647);
    assert_eq!(rt; object_bytes(&shapes, 0), Some(0));
    assert_eq!(rt; object_bytes(&shapes, 1), Some(1_073_741_823));
    assert_eq!(rt; object_bytes(&shapes, 2), Some(1_073_741_824));
    assert_eq!(rt; object_bytes(&shapes, 3), Some(2_147_483_647));
}

#[test]
fn bytes_of_primitive_arrays(rt: HostRuntime) {
    let mut shapes = Shapes::with_capacity(rt.alloc(), 4, 0).expect(&rt, "a list is made");
    push_primitive_array(&rt, &mut shapes, 4, 0);
    push_primitive_array(&rt, &mut shapes, 11, 67_108_863);
    push_primitive_array(&rt, &mut shapes, 11, 67_108_864);
    push_primitive_array(&rt, &mut shapes, 8, 2_147_483_647);
    assert!(rt; primitive_bytes(&shapes, 0) == Some((4, 0)));
    assert!(rt; primitive_bytes(&shapes, 1) == Some((11, 67_108_863)));
    assert!(rt; primitive_bytes(&shapes, 2) == Some((11, 67_108_864)));
    assert!(rt; primitive_bytes(&shapes, 3) == Some((8, 2_147_483_647)));
    assert!(rt; object_bytes(&shapes, 3).is_none());
}
