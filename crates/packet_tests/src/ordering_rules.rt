use fab_types::Class::{self, Completion, NonPosted, Posted};
use ordering::{eligible, may_pass};

#[test]
fn a_packet_is_eligible_where_it_may_pass_every_older_one(rt: HostRuntime) {
    let none: [Class; 0] = [];
    assert_eq!(rt; eligible(&none), [false, false, false]);
    assert_eq!(rt;
        eligible(&[NonPosted, Posted, Completion]),
        [true, true, false]
    );
    assert_eq!(rt;
        eligible(&[Posted, NonPosted, Completion]),
        [true, false, false]
    );
    assert_eq!(rt;
        eligible(&[Completion, NonPosted, Posted]),
        [true, true, true]
    );
}

#[test]
fn only_a_posted_packet_stops_the_other_classes(rt: HostRuntime) {
    for class in [Posted, NonPosted, Completion] {
        assert!(rt; !may_pass(class, class), "{class:?}");
        assert!(rt; !may_pass(class, Posted), "{class:?}");
    }
    assert!(rt; may_pass(Posted, NonPosted) && may_pass(Posted, Completion));
    assert!(rt; may_pass(NonPosted, Completion) && may_pass(Completion, NonPosted));
}
