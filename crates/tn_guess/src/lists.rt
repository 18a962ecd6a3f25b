//! Lists that are read and written anywhere.

/// The item at a place, or the other one where there is no such place.
pub fn at<T: Copy>(list: &[T], place: u32, missing: T) -> T {
    let place = place as usize;
    if place < list.len() {
        list[place]
    } else {
        missing
    }
}

/// Writes an item at a place, where there is one.
pub fn put<T: Copy>(list: &mut [T], place: u32, item: T) {
    let place = place as usize;
    if place < list.len() {
        list[place] = item;
    }
}
