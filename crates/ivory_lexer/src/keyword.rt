ghost use Rattle.std.specs.Prelude.{◌≡◌, bytes_eq, length};
ghost use Rattle.ivory_lexer.specs.Table.{look_up};
ghost use Rattle.ivory_lexer.specs.Words.{keywords};
ghost use Rattle.ivory_lexer.specs.Scanning.{of_length};

use crate::key::Key;

/// Whether the name is this text. Their first bytes tell most words apart.
fn is_word(name: &[u8], text: &[u8]) -> bool
    ensures { result ≡ bytes_eq name.now text.now }
{
    match (name, text) {
        ([a, ..], [b, ..]) => a == b && name == text,
        _ => name == text,
    }
}

/// The first key whose text the name is.
macro_rules! key_among {
    ($name:expr, $($text:literal => $key:ident,)*) => {{
        $(
            if is_word($name, $text) {
                return Some(Key::$key);
            }
        )*
        None
    }};
}

/// The keyword of this text, if it is one. Only keywords of its length and first byte are compared with it.
pub fn key_of(name: &[u8]) -> Option<Key>
    ensures { result ≡ look_up keywords name.now }
{
    match name.len() {
        2 => key_of_two(name),
        3 => key_of_three(name),
        4 => key_of_four(name),
        5 => key_of_five(name),
        6 => key_of_six(name),
        7 => key_of_seven(name),
        8 => key_of_eight(name),
        _ => None,
    }
}

fn key_of_two(name: &[u8]) -> Option<Key>
    ensures { result ≡ look_up (of_length 2 keywords) name.now }
{
    key_among! {
        name,
        b"if" => KwIf,
        b"ix" => KwIx,
        b"as" => KwAs,
    }
}

fn key_of_three(name: &[u8]) -> Option<Key>
    ensures { result ≡ look_up (of_length 3 keywords) name.now }
{
    key_among! {
        name,
        b"let" => KwLet,
        b"map" => KwMap,
        b"ref" => KwRef,
        b"raw" => KwRaw,
        b"set" => KwSet,
        b"ptr" => KwPtr,
    }
}

fn key_of_four(name: &[u8]) -> Option<Key>
    ensures { result ≡ look_up (of_length 4 keywords) name.now }
{
    key_among! {
        name,
        b"area" => KwArea,
        b"proc" => KwProc,
        b"copy" => KwCopy,
        b"else" => KwElse,
        b"upto" => KwUpto,
        b"last" => KwLast,
        b"true" => KwTrue,
        b"bool" => KwBool,
        b"toix" => KwToix,
        b"bits" => KwBits,
        b"with" => KwWith,
        b"null" => KwNull,
    }
}

fn key_of_five(name: &[u8]) -> Option<Key>
    ensures { result ≡ look_up (of_length 5 keywords) name.now }
{
    key_among! {
        name,
        b"const" => KwConst,
        b"alloc" => KwAlloc,
        b"first" => KwFirst,
        b"break" => KwBreak,
        b"false" => KwFalse,
    }
}

fn key_of_six(name: &[u8]) -> Option<Key>
    ensures { result ≡ look_up (of_length 6 keywords) name.now }
{
    key_among! {
        name,
        b"module" => KwModule,
        b"struct" => KwStruct,
        b"import" => KwImport,
        b"export" => KwExport,
        b"result" => KwResult,
        b"downto" => KwDownto,
        b"return" => KwReturn,
        b"assert" => KwAssert,
        b"int8_t" => KwInt8t,
        b"global" => KwGlobal,
        b"wrapix" => KwWrapix,
    }
}

fn key_of_seven(name: &[u8]) -> Option<Key>
    ensures { result ≡ look_up (of_length 7 keywords) name.now }
{
    key_among! {
        name,
        b"bitdata" => KwBitdata,
        b"ensures" => KwEnsures,
        b"forever" => KwForever,
        b"noalloc" => KwNoalloc,
        b"nobreak" => KwNobreak,
        b"uint8_t" => KwUint8t,
        b"int16_t" => KwInt16t,
        b"int32_t" => KwInt32t,
        b"int64_t" => KwInt64t,
    }
}

fn key_of_eight(name: &[u8]) -> Option<Key>
    ensures { result ≡ look_up (of_length 8 keywords) name.now }
{
    key_among! {
        name,
        b"requires" => KwRequires,
        b"noreturn" => KwNoreturn,
        b"uint16_t" => KwUint16t,
        b"uint32_t" => KwUint32t,
        b"uint64_t" => KwUint64t,
    }
}
