use iv_words::{Seq, Word};

/// What a text of the first form stands for: its imports and its exported procedures, each in the order of the text.
#[derive(Drop)]
pub struct FirstModule {
    pub imports: Seq<FirstImport>,
    pub procs: Seq<FirstProc>,
}

/// A procedure that the outside provides, with the number of its parameters. Each of them is a `uint8_t`.
#[derive(Drop)]
pub struct FirstImport {
    pub name: Word,
    pub params: u32,
}

/// A procedure that the outside may call, with its calls in the order of the text.
#[derive(Drop)]
pub struct FirstProc {
    pub name: Word,
    pub calls: Seq<FirstCall>,
}

/// A call of an import, which is numbered from 0 in the order of the text, with the value of each argument.
#[derive(Drop)]
pub struct FirstCall {
    pub import: u32,
    pub values: Seq<u8>,
}
