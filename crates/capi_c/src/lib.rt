// The functions of include/kusarehyon.h as C calls them: `capi`'s, each under its own name and with its own contract. C needs each
// name, and numbers for what it is given.
#![tactic(auto)]

ghost use Rattle.std.specs.Prelude.{◌≡◌, [], ◌∷◌, length};
ghost use Rattle.book.specs.Book.{sound_of};
ghost use Rattle.frames.specs.Frame.{scan_of, written_of, out_after};
ghost use Rattle.capi.specs.Calls.{Leaves, tag_reset_called, command_called, response_called, close_answer, closed_block, error_type_called, reader_reset_called, begin_called, replied_called, send_called, receive_called, find_called, scanned_numbers, written_numbers};

// ---- the tag

#[unsafe(no_mangle)]
pub extern "C" fn kusarehyon_tag_reset(state: &mut [u8], reply: &mut [u8], bits: &mut usize) -> u8
    ensures { Leaves (tag_reset_called state.old)
        result bits.new state.new reply.old reply.new }
{
    capi::kusarehyon_tag_reset(state, reply, bits)
}

#[unsafe(no_mangle)]
pub extern "C" fn kusarehyon_tag_command(
    state: &mut [u8],
    kind: u8,
    payload: &[u8],
    count: usize,
    features: u8,
    book: &[u8],
    number: u64,
    reply: &mut [u8],
    bits: &mut usize,
) -> u8
    ensures { Leaves (command_called state.old (record { kind = kind; payload = payload.now; count = count; features = features; book = book.now; number = number }) (length reply.old))
        result bits.new state.new reply.old reply.new }
{
    capi::kusarehyon_tag_command(
        state, kind, payload, count, features, book, number, reply, bits,
    )
}

#[unsafe(no_mangle)]
pub extern "C" fn kusarehyon_tag_response(
    state: &mut [u8],
    kind: u8,
    data: &[u8],
    count: usize,
    reply: &mut [u8],
    bits: &mut usize,
) -> u8
    ensures { Leaves (response_called state.old (record { kind = kind; payload = «data».now; count = count }) (length reply.old))
        result bits.new state.new reply.old reply.new }
{
    capi::kusarehyon_tag_response(state, kind, data, count, reply, bits)
}

#[unsafe(no_mangle)]
pub extern "C" fn kusarehyon_tag_close(state: &mut [u8]) -> u8
    ensures value { result ≡ close_answer state.old }
    ensures state_after { state.new ≡ closed_block state.old }
{
    capi::kusarehyon_tag_close(state)
}

#[unsafe(no_mangle)]
pub extern "C" fn kusarehyon_tag_error_type(state: &[u8]) -> u8
    ensures { result ≡ error_type_called state.now }
{
    capi::kusarehyon_tag_error_type(state)
}

// ---- the reader

#[unsafe(no_mangle)]
pub extern "C" fn kusarehyon_reader_reset(
    state: &mut [u8],
    reply: &mut [u8],
    bits: &mut usize,
) -> u8
    ensures { Leaves (reader_reset_called state.old)
        result bits.new state.new reply.old reply.new }
{
    capi::kusarehyon_reader_reset(state, reply, bits)
}

#[unsafe(no_mangle)]
pub extern "C" fn kusarehyon_reader_begin(
    state: &mut [u8],
    method: u8,
    options: u8,
    keyid: u8,
    number: u64,
    book: &[u8],
    reply: &mut [u8],
    bits: &mut usize,
) -> u8
    ensures { Leaves (begin_called state.old (record { method = method; options = options; keyid = keyid; number = number; book = book.now }) (length reply.old))
        result bits.new state.new reply.old reply.new }
{
    capi::kusarehyon_reader_begin(state, method, options, keyid, number, book, reply, bits)
}

#[unsafe(no_mangle)]
pub extern "C" fn kusarehyon_reader_replied(
    state: &mut [u8],
    payload: &[u8],
    count: usize,
    reply: &mut [u8],
    bits: &mut usize,
) -> u8
    ensures { Leaves (replied_called state.old payload.now count (length reply.old))
        result bits.new state.new reply.old reply.new }
{
    capi::kusarehyon_reader_replied(state, payload, count, reply, bits)
}

#[unsafe(no_mangle)]
pub extern "C" fn kusarehyon_reader_send(
    state: &mut [u8],
    kind: u8,
    data: &[u8],
    count: usize,
    reply: &mut [u8],
    bits: &mut usize,
) -> u8
    ensures { Leaves (send_called state.old (record { kind = kind; payload = «data».now; count = count }) (length reply.old))
        result bits.new state.new reply.old reply.new }
{
    capi::kusarehyon_reader_send(state, kind, data, count, reply, bits)
}

#[unsafe(no_mangle)]
pub extern "C" fn kusarehyon_reader_receive(
    state: &mut [u8],
    kind: u8,
    payload: &[u8],
    count: usize,
    reply: &mut [u8],
    bits: &mut usize,
) -> u8
    ensures { Leaves (receive_called state.old (record { kind = kind; payload = payload.now; count = count }) (length reply.old))
        result bits.new state.new reply.old reply.new }
{
    capi::kusarehyon_reader_receive(state, kind, payload, count, reply, bits)
}

// ---- the key book

#[unsafe(no_mangle)]
pub extern "C" fn kusarehyon_book_sound(book: &[u8]) -> bool
    ensures { result ≡ sound_of book.now }
{
    capi::kusarehyon_book_sound(book)
}

#[unsafe(no_mangle)]
pub extern "C" fn kusarehyon_book_find(
    book: &[u8],
    keyid: u8,
    reply: &mut [u8],
    bits: &mut usize,
) -> u8
    ensures { Leaves (find_called book.now keyid (length reply.old))
        result bits.new [] reply.old reply.new }
{
    capi::kusarehyon_book_find(book, keyid, reply, bits)
}

// ---- host frames

#[unsafe(no_mangle)]
pub extern "C" fn kusarehyon_frame_scan(
    s: &[u8],
    kind: &mut u8,
    count: &mut usize,
    start: &mut usize,
    end: &mut usize,
) -> u8
    ensures { result ∷ kind.new ∷ count.new ∷ start.new ∷ end.new ∷ [] ≡ scanned_numbers (scan_of s.now) }
{
    capi::kusarehyon_frame_scan(s, kind, count, start, end)
}

#[unsafe(no_mangle)]
pub extern "C" fn kusarehyon_frame_write(
    out: &mut [u8],
    at: usize,
    kind: u8,
    count: usize,
    payload: &[u8],
    next: &mut usize,
) -> u8
    ensures next_after { result ∷ next.new ∷ [] ≡ written_numbers (written_of (length out.old) at kind count payload.now) }
    ensures out_after { out.new ≡ out_after out.old at kind count payload.now }
{
    capi::kusarehyon_frame_write(out, at, kind, count, payload, next)
}
