// What is promised of headers.
ghost use Rattle.header.specs.Laws.{HeadersReadBack};

// A header that was written is read back as it was, and so is one with few damaged chips in each group that counts.
pub fn headers_are_read_back()
    ensures { HeadersReadBack }
{}
