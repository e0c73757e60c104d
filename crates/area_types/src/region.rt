/// Which areas a reference may lead to: those of the module, those to which an argument of a region parameter refers
/// (parameters are numbered from 0), or those that the procedure itself allocates.
#[derive(Clone, Copy, Debug, Drop, PartialEq, Eq)]
pub enum Region {
    Global,
    Param(u32),
    Own,
}
