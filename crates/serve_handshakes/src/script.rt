//! The library for pages.

/// It is `examples/presence.js`, of which `tests/serve` looks that it is this one.
pub const SCRIPT: &str =
    r##"// Who is in a room of presence_node, and what is said there: for pages, without a build and without another file. A module
// says `import { Presence } from "/presence.js"`; to other scripts, behind <script src="/presence.js">, it is `Presence` too.
//     const room = new Presence("wss://rooms.example.org/socket").join("room:lobby", "ann", { mood: "fine" });
//     room.onSync(() => show(room.list()));
//     room.onShout(({ text }) => say(text));
// presence.d.ts says what each call does, docs/MESSAGES.md which messages go to and fro.
var Presence = (() => {
  // Times are milliseconds. A server that answered and is dead is noticed within two beats.
  const BEAT = 4000, MOST_MISSED = 7, FIRST_WAIT = 500, LONGEST_WAIT = 30000, WAIT_FOR_PIECES = 5000, LEAST_RENEWAL = 10000;

  // Twice as long behind each try, and by chance up to half of it less: not all clients of a server come back at once.
  const waitBehind = tries => Math.min(FIRST_WAIT * 2 ** tries, LONGEST_WAIT) * (1 - Math.random() / 2);
  // What isn't JSON throws at once, and what the page changes later isn't sent.
  const copied = value => JSON.parse(JSON.stringify(value));
  // What the server said no to. (An error without a `reason` is of a lost connection.)
  const refusal = (reason, code) => Object.assign(new Error("refused: " + reason), { reason, code });
  // Where a token stands in the handshake: no proxy logs it there.
  const protocolOf = token => "base64url.bearer.phx." + btoa(token).replaceAll("+", "-").replaceAll("/", "_").replaceAll("=", "");

  // When a token is renewed: a third of its time before its end, if it tells one, as a JSON Web Token does.
  function renewalOf(token) {
    try {
      const { exp = Infinity } = JSON.parse(atob(token.split(".")[1].replaceAll("-", "+").replaceAll("_", "/")));
      return Date.now() + Math.max((exp * 1000 - Date.now()) * 2 / 3, LEAST_RENEWAL);
    } catch {
      return Infinity;
    }
  }

  // Callbacks, as a function: given one more, it answers how to take that out again. Each is run by itself: one that throws, of
  // which the console is told, keeps no other from hearing.
  function callbacks() {
    const all = new Set();
    const add = callback => (all.add(callback), () => all.delete(callback));
    add.tell = (...words) => all.forEach(callback => queueMicrotask(() => callback(...words)));
    return add;
  }

  // A room, which is joined over each connection, one after the other.
  class Room {
    state = "connecting"; onState = callbacks();
    onSync = callbacks(); onJoin = callbacks(); onLeave = callbacks(); onShout = callbacks();
    #ask; #me; #joinReference; #isOver = false; #tries = 0; #again; #missing; static #joins = 0;
    #people;             // what the server told of each key, since the join's state came (a Map: a key may be `__proto__`)
    #known = new Map();  // the same, of those whose coming the page was told and whose leaving it wasn't

    constructor(topic, me, ask) {
      this.topic = topic;
      this.#me = me;
      this.#ask = ask;
    }

    list() { return [...(this.#people?.keys() ?? [])].sort().map(key => ({ ...this.#people.get(key), key })); }
    shout(payload) { return this.push("shout", payload); }
    track(key, meta = {}) { return this.#be(copied({ key, meta })); }
    untrack() { return this.#be(null); }
    leave() { this.push("phx_leave").catch(() => {}); this.stop("left"); }
    push(event, payload = {}) { return this.#ask(this.#joinReference, this.topic, event, payload); }

    // The connection calls the next three: it is open, this came over it, it is lost. A topic that is full may have room later,
    // while any other refusal would come again.
    async join() {
      if (this.#isOver) return;
      this.#joinReference = String(++Room.#joins);
      this.#become("joining");
      try {
        await this.push("phx_join", this.#me ?? {});
        this.#tries = 0;
        if (!this.#isOver) this.#become("joined");
      } catch ({ reason, code }) {
        const wait = reason === "full" ? waitBehind(this.#tries++) : undefined;
        if (reason) this.stop("refused", { reason, code, wait });
        if (wait && !this.#isOver) this.#again = setTimeout(() => this.join(), wait);
      }
    }

    hear(joinReference, event, payload) {
      const isOfThisJoin = joinReference === this.#joinReference;  // what comes before its state is of an earlier one
      if (event === "presence_state" && isOfThisJoin) this.#begin(payload);
      if (event === "presence_diff" && this.#people) this.#change(payload);
      if (event === "shout" && this.#people) this.onShout.tell(payload);
      if (event === "phx_close" && isOfThisJoin) this.stop("left", { reason: "the server ended it" });
    }

    stop(state, why = {}) {
      if (this.#isOver) return;
      this.#isOver = state === "left" || (state === "refused" && !why.wait);
      clearTimeout(this.#again);
      clearTimeout(this.#missing);
      this.#joinReference = this.#people = undefined;
      this.#become(state, why);
      this.onSync.tell();
    }

    #become(state, why = {}) { this.state = state; this.onState.tell(state, why); }

    // What is refused is taken back: the next join would be refused by it.
    async #be(me) {
      const before = this.#me, isSame = me?.key === before?.key;
      this.#me = me;
      if (!this.#joinReference) return;
      try {
        if (me) await this.push(isSame ? "update" : "track", me);
        if (before && !isSame) await this.push("untrack", before);
      } catch (error) {
        if (error.reason && this.#me === me) this.#me = before;
        throw error;
      }
    }

    // A state takes the place of what was held. A long one comes in pieces, of which none says that it is the last: who is
    // missing in the first has left only if none of them brings him back.
    #begin(state) {
      clearTimeout(this.#missing);
      this.#people = new Map();
      for (const [key, one] of Object.entries(state)) this.#put(key, one, [], one.metas);
      this.#tell(this.#people.keys());
      this.#missing = setTimeout(() => this.#tell([...this.#known.keys()]), WAIT_FOR_PIECES);
    }

    // Of a diff the joins are taken first, and then the leaves.
    #change({ joins, leaves }) {
      for (const [key, one] of Object.entries(joins)) this.#put(key, one, one.metas, one.metas);
      for (const [key, one] of Object.entries(leaves)) this.#put(key, this.#people.get(key), one.metas, []);
      this.#tell(Object.keys({ ...joins, ...leaves }));
    }

    // Metas of a key go, by their references, and others come behind those that stay.
    #put(key, one, gone, come) {
      const references = new Set(gone.map(meta => meta.phx_ref));
      const stay = (this.#people.get(key)?.metas ?? []).filter(meta => !references.has(meta.phx_ref));
      if (stay.length + come.length === 0) this.#people.delete(key);
      else this.#people.set(key, { ...one, metas: [...stay, ...come] });
    }

    // Tells the page of these keys, where they came or went since it was told the last time.
    #tell(keys) {
      for (const key of keys) {
        const was = this.#known.get(key), is = this.#people.get(key);
        if (is) this.#known.set(key, is); else this.#known.delete(key);
        if (is && !was) this.onJoin.tell(key, is);
        if (was && !is) this.onLeave.tell(key, was);
      }
      this.onSync.tell();
    }
  }

  // One WebSocket after the other, and the rooms that are joined over it. What is asked is answered in the order of asking.
  return class Presence {
    #address; #token; #rooms = new Map(); #unanswered = new Map(); #asked = 0; #beats; #missed; #tries = 0; #again;
    #renewAt; #isClosed = false; #socket = { close() {} };  // none yet

    constructor(url, { token = () => undefined } = {}) {
      this.#address = url + "/websocket?vsn=2.0.0";
      this.#token = token;
      this.#connect();
    }

    join(topic, key, meta = {}) {
      this.#rooms.get(topic)?.leave();
      const room = new Room(topic, key === undefined ? null : copied({ key, meta }), (...words) => this.#ask(...words));
      this.#rooms.set(topic, room);
      if (this.#socket.readyState === 1) room.join();
      return room;
    }

    async renew() {
      this.#renewAt = Infinity;
      const token = await this.#token();
      this.#renewAt = renewalOf(token);
      return this.#ask(null, "phoenix", "access_token", { access_token: token });
    }

    close(why) {
      this.#isClosed = true;
      clearTimeout(this.#again);
      this.#drop();
      this.#rooms.forEach(room => room.stop("left", why));
    }

    async #connect() {
      const token = await Promise.resolve().then(this.#token).catch(() => null);
      if (this.#isClosed) return;
      if (token === null) return this.#lose(1006, "no token");
      this.#renewAt = renewalOf(token);
      this.#socket = new WebSocket(this.#address, token ? ["phoenix", protocolOf(token)] : []);
      this.#socket.onopen = () => this.#rooms.forEach(room => room.join());
      this.#socket.onmessage = ({ data }) => this.#hear(JSON.parse(data));
      this.#socket.onclose = ({ code, reason }) => this.#lose(code, reason);
      this.#missed = 0;
      this.#beats = setInterval(() => this.#beat(), BEAT);
    }

    async #ask(joinReference, topic, event, payload) {
      if (joinReference === undefined || this.#socket.readyState !== 1) throw new Error("not joined");
      const reference = String(++this.#asked);
      this.#socket.send(JSON.stringify([joinReference, reference, topic, event, payload]));
      return new Promise((take, refuse) => this.#unanswered.set(reference, { take, refuse }));
    }

    #hear([joinReference, reference, topic, event, payload]) {
      this.#missed = 0;
      if (event !== "phx_reply") this.#rooms.get(topic)?.hear(joinReference, event, payload);
      else if (this.#unanswered.has(reference)) this.#settle(reference, payload);
    }

    // What was asked before this and isn't answered, as a shout that all were told, was taken.
    #settle(reference, { status, response }) {
      for (const [asked, { take, refuse }] of this.#unanswered) {
        this.#unanswered.delete(asked);
        if (asked !== reference) take();
        else return status === "ok" ? take(response) : refuse(refusal(response.reason));
      }
    }

    // Whatever comes is a sign of life. A long state may take longer than a beat, so that each further try has more patience,
    // until a beat is answered. (A token that isn't renewed ends, and the server the connection with it.)
    #beat() {
      if (this.#missed > Math.min(this.#tries, MOST_MISSED)) return this.#lose(1006, "no answer");
      this.#missed++;
      this.#ask(null, "phoenix", "heartbeat", {}).then(() => this.#tries = 0, () => {});
      if (Date.now() > this.#renewAt) this.renew().catch(() => {});
    }

    // 1008 and 1009 refuse a message: the first one that isn't answered. By 1000 a server says that it has done with this client,
    // but for one that was silent, as a hidden tab may be.
    #lose(code, reason) {
      if (code === 1008 || code === 1009) [...this.#unanswered.values()][0]?.refuse(refusal("close code " + code, code));
      if (code === 1000 && !reason.startsWith("silent")) return this.close({ code, reason });
      this.#drop();
      const wait = waitBehind(this.#tries++);
      this.#again = setTimeout(() => this.#connect(), wait);
      this.#rooms.forEach(room => room.stop("connecting", { code, reason, wait }));
    }

    // A browser tells of the end only when the other side has ended too, and that may be dead: nothing waits for it.
    #drop() {
      clearInterval(this.#beats);
      this.#unanswered.forEach(({ refuse }) => refuse(new Error("the connection is lost")));
      this.#unanswered.clear();
      this.#socket.onopen = this.#socket.onmessage = this.#socket.onclose = null;
      this.#socket.close();
    }
  };
})();

// A module has to have an `export`, and a script may have none. To a script `await` is a name, and what stands behind the two
// slashes a comment. To a module it is a keyword and `/0/` a pattern, so that its line goes on behind the division by 0.
typeof await/0//0; export { Presence };
"##;
