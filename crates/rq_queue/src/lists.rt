//! Lists that are gone through from their end.

ghost use Rattle.std.specs.Prelude.{◌≡◌, ◌++◌, [], option_to_list, IfNone};

// So many members are let go of at once.
const TOGETHER: usize = 32_768;

/// The last member of a list, taken out. Of a long list the memory is given back on the way, since
/// what is made of the members may need as much.
pub(crate) fn next_of<M: Drop>(list: &mut Vec<M>) -> Option<M>
    ensures taken { list.old.items ≡ list.new.items ++ option_to_list result }
    ensures none { IfNone result (list.old.items ≡ []) }
{
    if list.len() % TOGETHER == 0 {
        list.shrink_to_fit();
    }
    list.pop()
}
