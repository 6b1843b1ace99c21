//! Ranges are handed out by calls of a sink, in order.
ghost use Rattle.std.specs.List.{FoldsTo};
ghost use Rattle.std.specs.Option.{option_to_list};

/// Calls the sink for a range, if there is one.
#[inline(always)]
pub(crate) fn call<F: FnMut(u64, u64)>(range: Option<(u64, u64)>, sink: &mut F)
    requires { F.IsAlwaysCallable sink.old }
    ensures called { FoldsTo (λ f range g. F.step f range.0 range.1 tt g) sink.old
        (option_to_list range) sink.new }
    ensures callable { F.IsAlwaysCallable sink.new }
{
    if let Some((start, end)) = range {
        sink(start, end);
    }
}

/// Calls the sink once for each range, in order.
pub fn hand_out<F: FnMut(u64, u64)>(ranges: &[(u64, u64)], sink: &mut F)
    requires { F.IsAlwaysCallable sink.old }
    ensures called { FoldsTo
        (λ f range g. F.step f range.0 range.1 tt g) sink.old ranges.now sink.new }
    ensures callable { F.IsAlwaysCallable sink.new }
{
    let mut rest = ranges;
    while let Some((range, others)) = rest.split_first() {
        sink(range.0, range.1);
        rest = others;
    }
}
