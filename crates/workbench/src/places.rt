// What stands in a list, where its length does not say that there is anything.

// The first n, or all where there are fewer.
pub(crate) fn front<T>(list: &[T], n: usize) -> &[T] {
    list.get(..n).unwrap_or(list)
}

// At a place; 0 behind the last.
pub(crate) fn at<T: Copy + Default>(list: &[T], i: usize) -> T {
    list.get(i).copied().unwrap_or_default()
}
