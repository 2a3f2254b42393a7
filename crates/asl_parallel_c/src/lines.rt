//! The templates of instructions, as they are written.

pub(crate) const NULL: &[u8] = b"r@ = ASLR_NULL;\n";

pub(crate) const MOVE: &[u8] = b"r@ = r@;\n";

pub(crate) const ADD: &[u8] = b"r@ = aslr_add(t, r@, r@);\n";

pub(crate) const SUBTRACT: &[u8] = b"r@ = aslr_sub(t, r@, r@);\n";

pub(crate) const LESS: &[u8] = b"r@ = aslr_lt(t, r@, r@);\n";

pub(crate) const EQUALS: &[u8] = b"r@ = aslr_eq(t, r@, r@);\n";

pub(crate) const GLOBAL: &[u8] = b"r@ = aslr_glob(t, @);\n";

pub(crate) const FIELD: &[u8] = b"r@ = aslr_field(t, r@, @);\n";

pub(crate) const LOAD: &[u8] = b"r@ = aslr_load(t, r@);\n";

pub(crate) const STORE: &[u8] = b"aslr_store(t, r@, r@);\n";

pub(crate) const NEW: &[u8] = b"r@ = aslr_new(t, @, @);\n";

pub(crate) const JUMP: &[u8] = b"goto L@;\n";

pub(crate) const JUMP_IF_ZERO: &[u8] = b"if (aslr_jz(r@)) goto L@;\n";

pub(crate) const RETURN: &[u8] = b"return r@;\n";

pub(crate) const OUTPUT: &[u8] = b"aslr_out(t, r@);\n";

pub(crate) const LEAVE: &[u8] = b"aslr_leave(t);\n";
