// What a call of either machine is given, its reply buffer apart. Kinds, methods, options and features stay bytes: a call answers
// every byte (demand 1, `demand1_tag` and `demand1_reader` in `promises`).

// A command to the tag.
#[derive(Clone, Copy)]
pub struct Command<'a> {
    // 0 authentication, 1 comm, 2 secure, 3 key update.
    pub kind: u8,
    // Its first `count` bits are the command's.
    pub payload: &'a [u8],
    pub count: usize,
    // The tag's own features, key book and number.
    pub features: u8,
    pub book: &'a [u8],
    pub number: u64,
}

// A response that the host wants of the tag, or what the reader sends or takes in.
#[derive(Clone, Copy)]
pub struct Message<'a> {
    // Of the tag 4 comm, 5 secure; at the reader 1 comm, 2 secure.
    pub kind: u8,
    // Its first `count` bits are the data, or the message that is taken in.
    pub payload: &'a [u8],
    pub count: usize,
}

// What the reader begins an authentication with.
#[derive(Clone, Copy)]
pub struct Begin<'a> {
    pub method: u8,
    pub options: u8,
    pub keyid: u8,
    // The reader's own number and key book.
    pub number: u64,
    pub book: &'a [u8],
}
