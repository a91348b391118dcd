use fd_words::Memory;

/// What is made where memory suffices.
pub type Made<T> = Result<T, Memory>;
