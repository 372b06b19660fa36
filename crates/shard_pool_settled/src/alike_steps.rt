// Whether two steps are alike. Metas and payloads are compared by their compact text.
ghost use Rattle.std.specs.Prelude.{◌≡◌};
ghost use Rattle.presence_base.specs.Order.{same_text};
ghost use Rattle.shard_pool_settled.specs.Alike.{same_value, same_step, is_track, is_update, is_untrack, is_untrack_all, is_list, is_get, is_subscribe, is_take, is_unsubscribe, is_shout, is_heard, is_tick, is_permdown, is_cut};

use presence_base::{Key, Meta, Replica, Topic};
use presence_journal::{Payload, Step, TakeLimit};

fn are_texts_alike(a: &str, b: &str) -> bool
    ensures { result ≡ same_text a.now b.now }
{
    a.as_bytes().cmp(b.as_bytes()).is_eq()
}

fn are_metas_alike(a: &Meta, b: &Meta) -> bool
    ensures { result ≡ same_value a.now b.now }
{
    let (a, b) = (a.text(), b.text());
    are_texts_alike(a, b)
}

fn are_payloads_alike(a: &Payload, b: &Payload) -> bool
    ensures { result ≡ same_value a.now b.now }
{
    are_texts_alike(a.text(), b.text())
}

fn are_topics_alike(a: &Topic, b: &Topic) -> bool
    ensures { result ≡ same_text a.now b.now }
{
    a.cmp(b).is_eq()
}

fn are_keys_alike(a: &Key, b: &Key) -> bool
    ensures { result ≡ same_text a.now b.now }
{
    a.cmp(b).is_eq()
}

fn is_that_track(pid: u64, topic: &Topic, key: &Key, meta: &Meta, step: &Step) -> bool
    ensures { result ≡ is_track pid topic.now key.now meta.now step.now }
{
    let Step::Track {
        pid: p,
        topic: t,
        key: k,
        meta: m,
    } = step
    else {
        return false;
    };
    *p == pid && are_topics_alike(t, topic) && are_keys_alike(k, key) && are_metas_alike(m, meta)
}

fn is_that_update(pid: u64, topic: &Topic, key: &Key, meta: &Meta, step: &Step) -> bool
    ensures { result ≡ is_update pid topic.now key.now meta.now step.now }
{
    let Step::Update {
        pid: p,
        topic: t,
        key: k,
        meta: m,
    } = step
    else {
        return false;
    };
    *p == pid && are_topics_alike(t, topic) && are_keys_alike(k, key) && are_metas_alike(m, meta)
}

fn is_that_untrack(pid: u64, topic: &Topic, key: &Key, step: &Step) -> bool
    ensures { result ≡ is_untrack pid topic.now key.now step.now }
{
    match step {
        Step::Untrack {
            pid: p,
            topic: t,
            key: k,
        } => *p == pid && are_topics_alike(t, topic) && are_keys_alike(k, key),
        _ => false,
    }
}

fn is_that_untrack_all(pid: u64, topic: &Topic, step: &Step) -> bool
    ensures { result ≡ is_untrack_all pid topic.now step.now }
{
    match step {
        Step::UntrackAll { pid: p, topic: t } => *p == pid && are_topics_alike(t, topic),
        _ => false,
    }
}

fn is_that_list(topic: &Topic, step: &Step) -> bool
    ensures { result ≡ is_list topic.now step.now }
{
    match step {
        Step::List { topic: t } => are_topics_alike(t, topic),
        _ => false,
    }
}

fn is_that_get(topic: &Topic, key: &Key, step: &Step) -> bool
    ensures { result ≡ is_get topic.now key.now step.now }
{
    match step {
        Step::Get { topic: t, key: k } => are_topics_alike(t, topic) && are_keys_alike(k, key),
        _ => false,
    }
}

fn is_that_subscribe(topic: &Topic, step: &Step) -> bool
    ensures { result ≡ is_subscribe topic.now step.now }
{
    match step {
        Step::Subscribe { topic: t } => are_topics_alike(t, topic),
        _ => false,
    }
}

fn is_that_take(subscriber: u64, max: &TakeLimit, step: &Step) -> bool
    ensures { result ≡ is_take subscriber max.now step.now }
{
    match step {
        Step::Take {
            subscriber: n,
            max: m,
        } => *n == subscriber && m.get() == max.get(),
        _ => false,
    }
}

fn is_that_unsubscribe(subscriber: u64, step: &Step) -> bool
    ensures { result ≡ is_unsubscribe subscriber step.now }
{
    match step {
        Step::Unsubscribe { subscriber: n } => *n == subscriber,
        _ => false,
    }
}

fn is_that_shout(topic: &Topic, payload: &Payload, step: &Step) -> bool
    ensures { result ≡ is_shout topic.now payload.now step.now }
{
    let Step::Shout {
        topic: t,
        payload: p,
    } = step
    else {
        return false;
    };
    are_topics_alike(t, topic) && are_payloads_alike(p, payload)
}

fn is_that_heard(replica: &Replica, now: u64, step: &Step) -> bool
    ensures { result ≡ is_heard replica.now now step.now }
{
    match step {
        Step::Heard { replica: r, now: n } => r.get().cmp(replica).is_eq() && *n == now,
        _ => false,
    }
}

fn is_that_tick(now: u64, step: &Step) -> bool
    ensures { result ≡ is_tick now step.now }
{
    match step {
        Step::Tick { now: n } => *n == now,
        _ => false,
    }
}

fn is_that_permdown(replica: &Replica, step: &Step) -> bool
    ensures { result ≡ is_permdown replica.now step.now }
{
    match step {
        Step::PermDown { replica: r } => r.get().cmp(replica).is_eq(),
        _ => false,
    }
}

fn is_a_cut(step: &Step) -> bool
    ensures { result ≡ is_cut step.now }
{
    match step {
        Step::Cut => true,
        _ => false,
    }
}

// Whether the steps are of one kind, for the same caller, texts, numbers and values. A merge, which has no
// seat, is like no step.
pub(crate) fn are_steps_alike(a: &Step, b: &Step) -> bool
    ensures { result ≡ same_step a.now b.now }
{
    match a {
        Step::Track {
            pid,
            topic,
            key,
            meta,
        } => is_that_track(*pid, topic, key, meta, b),
        Step::Update {
            pid,
            topic,
            key,
            meta,
        } => is_that_update(*pid, topic, key, meta, b),
        Step::Untrack { pid, topic, key } => is_that_untrack(*pid, topic, key, b),
        Step::UntrackAll { pid, topic } => is_that_untrack_all(*pid, topic, b),
        Step::List { topic } => is_that_list(topic, b),
        Step::Get { topic, key } => is_that_get(topic, key, b),
        Step::Subscribe { topic } => is_that_subscribe(topic, b),
        Step::Take { subscriber, max } => is_that_take(*subscriber, max, b),
        Step::Unsubscribe { subscriber } => is_that_unsubscribe(*subscriber, b),
        Step::Shout { topic, payload } => is_that_shout(topic, payload, b),
        Step::Heard { replica, now } => is_that_heard(replica.get(), *now, b),
        Step::Tick { now } => is_that_tick(*now, b),
        Step::PermDown { replica } => is_that_permdown(replica.get(), b),
        Step::Cut => is_a_cut(b),
        Step::Merge { told: _ } | Step::Rebirth { incarnation: _ } => false,
    }
}
