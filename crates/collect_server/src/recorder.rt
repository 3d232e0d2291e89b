//! What `/recorder.js` gives: `recorder/recorder.js` without indents and comments.
//! `tools/browser/served.py` writes it.

pub(crate) const RECORDER: &[u8] = b"\
    (() => {\n\
    \"use strict\";\n\
    const get = (el, name) => Reflect.get(Element.prototype, name, el);\n\
    const { getAttribute, getAttributeNames, matches, querySelectorAll } = Element.prototype;\n\
    const attr = (el, name) => el ? getAttribute.call(el, name) : null;\n\
    const all = (el, selector) => [...querySelectorAll.call(el, selector)];\n\
    const BYTES = 65200, NODES = 4096, LEVELS = 48;\n\
    const ACTING = \"a[*|href],area[href],button,input,textarea,select\", TARGETS = \"form,\" + ACTING;\n\
    const READ = \"href action method type name value checked disabled formaction formmethod\".split(\" \");\n\
    const SEEN = [...READ, ...\"alt src title placeholder aria-label\".split(\" \")];\n\
    const json = (value) => JSON.stringify(value).replace(/\\\\(\\\\|ud\\w{3})/g, (it) => it.length > 2 ? \"\\ufffd\" : it);\n\
    const bytesOf = (text) => new TextEncoder().encode(text).length;\n\
    const asSent = (text) => text.replace(/\\r\\n?|\\n/g, \"\\r\\n\");\n\
    const nameOf = (el) => get(el, \"localName\").match(/^[a-z_][\\w.-]{0,63}$/i)?.[0] ?? \"_\";\n\
    const kindOf = (el) => {\n\
    const isField = /^(input|button|textarea|select)$/.test(nameOf(el)), { type } = el;\n\
    return !isField || /^(image|file|reset|button)$/.test(type) ? \"\" : /^(check|rad|sub)/.test(type) ? type : \"text\";\n\
    };\n\
    const startOf = (el) => {\n\
    const it = el.cloneNode(true);\n\
    it.value = it.defaultValue ?? it.value;\n\
    return asSent(it.value ?? \"\");\n\
    };\n\
    const attrsOf = (el, n, step) => {\n\
    const a = {};\n\
    for (const name of getAttributeNames.call(el))\n\
    if (!step || (step > 1 ? READ : SEEN).includes(name)) a[name] = attr(el, name);\n\
    const isMended = n === \"input\" && kindOf(el) === \"text\" && el.value !== (a.value ?? \"\");\n\
    if (n === \"select\" || isMended) a.value = startOf(el);\n\
    else if (a.value) a.value = asSent(a.value);\n\
    return a;\n\
    };\n\
    const leading = (root) => {\n\
    const shown = new Set([root, ...all(root, `:is(${TARGETS}),:has(${TARGETS})`)]);\n\
    for (const el of shown) {\n\
    let it = el;\n\
    do it = get(it, \"previousElementSibling\"); while (it && nameOf(it) !== nameOf(el));\n\
    if (it) shown.add(it);\n\
    }\n\
    return shown;\n\
    };\n\
    const isKept = (text, n, step) => !step || n === \"textarea\" || step < 2 && !/^(script|style)$/.test(n) && text.trim();\n\
    const treeOf = function* (copy, n, path, level, page) {\n\
    const { step, shown, places } = page, c = [], counts = { __proto__: null };\n\
    places.set(copy, { copy, path });\n\
    if (places.size % 64 === 0) yield;\n\
    for (const it of get(copy, \"childNodes\")) {\n\
    if (it instanceof Text) {\n\
    if (isKept(it.data, n, step)) c.push(n === \"textarea\" ? asSent(it.data) : it.data);\n\
    } else if (it instanceof Element && level < LEVELS && (!shown || shown.has(it))) {\n\
    const name = nameOf(it), count = counts[name] = (counts[name] ?? 0) + 1;\n\
    c.push(yield* treeOf(it, name, `${path}/${name}[${count}]`, level + 1, page));\n\
    }\n\
    }\n\
    page.nodes += c.length;\n\
    return { n, a: attrsOf(copy, n, step), c };\n\
    };\n\
    const pageOf = function* (root, room, from) {\n\
    for (let step = from ?? (all(root, \"*\").length < NODES ? 0 : 3); ; step += 1) {\n\
    const page = { step, shown: step > 3 ? new Set() : step > 2 ? leading(root) : null, places: new Map(), nodes: 1 };\n\
    const tree = yield* treeOf(root, nameOf(root), `/${nameOf(root)}[1]`, 1, page);\n\
    page.text = json(tree).replace(/,\"(a\":{}|c\":\\[\\])/g, \"\");\n\
    yield page;\n\
    if (step > 3 || page.nodes <= NODES && bytesOf(page.text) <= room) return page;\n\
    }\n\
    };\n\
    const safely = (act) => (...words) => {\n\
    try {\n\
    return act(...words);\n\
    } catch {}\n\
    };\n\
    const bare = (address) => address.split(\"#\")[0];\n\
    const unasked = (address) => address.split(/[?#]/)[0];\n\
    const script = document.currentScript?.src, UPLOAD = new URL(\"upload\", script || location.origin);\n\
    const MARK = Symbol.for(\"yugdemor\"), DAY = 864e5, { fetch, navigation, Date: { now } } = window;\n\
    const LINE = \"yugdemor line \", OPEN = \"yugdemor open \", TO = \"yugdemor to \", KNOWN = \"yugdemor known\";\n\
    const memory = {}, store = (where, key, text) => safely(() => where[key] = text)();\n\
    const stored = (kind) => [local ?? {}, memory].flatMap((where) => Object.keys(where).sort()\n\
    .filter((key) => key.startsWith(kind) && where[key]).map((key) => [key, where[key]]));\n\
    let local, session, room = 2e6, isSafe, isKnown, pause = 0, isBusy, timer;\n\
    const keep = (line, tail = \"}\") => {\n\
    const key = `${LINE}${line.v} ${1e5 + line.n}`, text = json(line).slice(0, -1) + tail;\n\
    room -= text.length;\n\
    isSafe &&= room > 0 && store(local, key, text);\n\
    if (!isSafe) memory[key] = text;\n\
    };\n\
    const nextLines = (kind, left) => stored(kind).filter(([, text], at) => (left -= text.length) > 0 || !at);\n\
    const bodyOf = (lines) => lines.map(([, text]) => text + \"\\n\").join(\"\");\n\
    const forget = (lines, { have = {}, refused = {} }) => {\n\
    const first = {};\n\
    let went;\n\
    for (const [key, text] of lines) {\n\
    const line = JSON.parse(text), { v, n, opener } = line;\n\
    if (!(v in have)) continue;\n\
    first[v] ??= n;\n\
    const isLost = refused[v] || first[v] > have[v] + 1, isDone = isLost || n <= have[v];\n\
    visit.isOver ||= isLost && v === visit.v;\n\
    if (!isDone && (!opener || local[OPEN + opener])) continue;\n\
    went = true;\n\
    room += text.length;\n\
    delete local[key];\n\
    delete memory[key];\n\
    if (!isDone) keep({ ...line, opener: undefined });\n\
    }\n\
    return went;\n\
    };\n\
    const ask = async (options) => {\n\
    const answer = await fetch(UPLOAD, { credentials: \"include\", ...options });\n\
    isKnown &&= answer.status !== 401;\n\
    return answer.json();\n\
    };\n\
    const flush = async () => {\n\
    timer = clearTimeout(timer);\n\
    const lines = isBusy ? [] : nextLines(LINE, 12e4);\n\
    if (!lines.length) return;\n\
    let went;\n\
    isBusy = true;\n\
    try {\n\
    isKnown ||= await (navigator.locks?.request(KNOWN, ask) ?? ask());\n\
    store(local, KNOWN, 1);\n\
    went = forget(lines, await ask({ method: \"POST\", body: bodyOf(lines) }));\n\
    } catch {}\n\
    isBusy = false;\n\
    pause = went ? 100 : Math.min(3e4, pause * 2 + 100);\n\
    plan();\n\
    };\n\
    const plan = () => (timer ??= setTimeout(flush, pause));\n\
    let visit;\n\
    const enter = safely(() => {\n\
    if (!local) {\n\
    local = safely(() => localStorage)() ?? {};\n\
    session = safely(() => sessionStorage)() ?? {};\n\
    visit.handed = session[TO];\n\
    delete session[TO];\n\
    isSafe = local instanceof Storage;\n\
    isKnown = local[KNOWN];\n\
    for (const [, text] of stored(LINE)) room -= text.length;\n\
    for (const [key, text] of stored(OPEN)) {\n\
    const end = JSON.parse(text);\n\
    if (end.at > now() - 2 * DAY) continue;\n\
    delete local[key];\n\
    if (end.n) keep(end);\n\
    }\n\
    plan();\n\
    }\n\
    if (!visit.n) store(local, OPEN + visit.v, json({ at: visit.at }));\n\
    });\n\
    const whenIdle = (act) => window.requestIdleCallback?.(act, { timeout: 100 }) ?? setTimeout(act, 50, true);\n\
    const begin = (isNew) => {\n\
    const at = now(), v = `${at.toString(36)}-${crypto.getRandomValues(new Uint32Array(4)).join(\"-\")}`;\n\
    visit = { v, isNew, path: location.pathname + location.search, at, n: 0, sent: 0, isOver: true };\n\
    window[MARK] = v;\n\
    whenIdle(enter);\n\
    };\n\
    const say = (t, rest, tail) => {\n\
    if (visit.isOver) return;\n\
    const { v } = visit, n = ++visit.n, at = visit.at = now();\n\
    keep({ v, n, t, at, kept: isSafe ? undefined : false, ...rest }, tail);\n\
    store(local, OPEN + v, json({ v, n: n + 1, t: \"end\", at }));\n\
    plan();\n\
    };\n\
    const sayEvent = (t, chain, rest) => {\n\
    if (visit.n < 1e4) say(t, { target: targetOf(chain), ...rest });\n\
    else if (visit.n === 1e4) say(\"click\", { target: targetOf([]) });\n\
    };\n\
    const note = (changes) => changes.forEach((it) => {\n\
    visit.changes.push(it);\n\
    it.removedNodes.forEach(watch);\n\
    });\n\
    const observer = new MutationObserver(note);\n\
    const watch = (node) => observer.observe(node,\n\
    { subtree: true, childList: true, attributeOldValue: true, characterDataOldValue: true });\n\
    const take = () => {\n\
    if (visit.changes) return;\n\
    visit.changes = [];\n\
    watch(visit.root = document.documentElement);\n\
    whenIdle(tell);\n\
    };\n\
    const tellPage = function* () {\n\
    const { root, changes, isNew, path } = visit, copies = new Map();\n\
    const inert = document.implementation.createHTMLDocument(\"\");\n\
    const copyOf = (node) => {\n\
    if (!node || copies.has(node)) return copies.get(node);\n\
    let top;\n\
    for (let it = node; it; it = get(it, \"parentElement\")) top = it;\n\
    const one = document.createTreeWalker(top), other = document.createTreeWalker(inert.importNode(top, true));\n\
    do copies.set(one.currentNode, other.currentNode); while (one.nextNode() && other.nextNode());\n\
    return copies.get(node);\n\
    };\n\
    enter();\n\
    note(observer.takeRecords());\n\
    observer.disconnect();\n\
    changes.reverse().forEach(safely((it) => {\n\
    const { attributeName: name, attributeNamespace: space, oldValue } = it, copy = copyOf(it.target);\n\
    if (!name) copy.nodeValue = oldValue;\n\
    else if (oldValue === null) copy.removeAttributeNS(space, name);\n\
    else copy.setAttributeNS(space, name, oldValue);\n\
    for (const node of it.addedNodes) copy.removeChild(copyOf(node));\n\
    for (const node of it.removedNodes) copy.insertBefore(copyOf(node), copyOf(it.nextSibling));\n\
    }));\n\
    const head = { ...openerOf(visit), path }, page = yield* pageOf(copyOf(root), BYTES - bytesOf(json(head)));\n\
    visit.places = page.places;\n\
    for (const [el, copy] of copies) {\n\
    const it = placeOf(copy);\n\
    if (it) visit.places.set(el, Object.assign(it, { el, filled: isNew ? null : valueOf(el) }));\n\
    }\n\
    visit.isOver = false;\n\
    say(\"load\", { ...head, step: page.step }, `,\"page\":${page.text}}`);\n\
    };\n\
    const tell = safely((isPiece) => {\n\
    const end = now() + (isPiece ? 4 : 1e9);\n\
    visit.pieces ??= tellPage();\n\
    while (!visit.pieces.next().done) if (now() > end) return whenIdle(tell);\n\
    });\n\
    const placeOf = (el) => visit.places.get(el);\n\
    const targetOf = (chain) => {\n\
    const at = chain.findIndex(placeOf), { path } = placeOf(chain[at] ?? visit.root);\n\
    return at ? `${path.split(\"/\", LEVELS).join(\"/\")}/_new[1]` : path;\n\
    };\n\
    const isLink = (el) => el && /^(a|area)$/.test(nameOf(el));\n\
    const conflict = (chain) =>\n\
    sayEvent(\"click\", chain.filter((el) => !isLink(el)), { req: ++visit.sent });\n\
    const handOn = (to, n) => {\n\
    if (!to) return;\n\
    enter();\n\
    const { v } = visit, url = bare(document.URL), id = TO + [v, n, to = bare(to)];\n\
    store(session, TO, id);\n\
    store(local, id, json({ id, opened: { opener: v, from: n }, url, to, at: now() }));\n\
    };\n\
    const openerOf = ({ isNew, handed }) => {\n\
    const fit = ({ id, url, to }) => {\n\
    const there = (to === bare(document.URL)) * 2 + (url === document.referrer);\n\
    return (isNew || id === handed) && there && there + (id === handed) * 1.5;\n\
    };\n\
    const [best] = stored(TO).map(([, text]) => JSON.parse(text))\n\
    .filter((it) => performance.timeOrigin - it.at < 6e4 ? fit(it) : !delete local[it.id])\n\
    .sort((one, other) => fit(other) - fit(one));\n\
    delete local[best?.id];\n\
    return best?.opened ?? (isNew && window !== parent && { opener: parent[MARK] });\n\
    };\n\
    let typed, idle;\n\
    const valueOf = (el) => el.type === \"checkbox\" ? el.checked : el.value;\n\
    const isOn = (it) => it.held ?? it.copy.defaultChecked;\n\
    const heldBy = (it) => it.held ?? startOf(it.copy);\n\
    const sayInput = (chain, text) => {\n\
    const [el] = chain, value = asSent(text), it = placeOf(el);\n\
    if (el.type === \"password\" || it && (it.copy.type === \"password\" || heldBy(it) === value)) return;\n\
    if (bytesOf(json(value)) > 6e4) return conflict(chain);\n\
    if (it) it.held = value;\n\
    sayEvent(\"input\", chain, { value });\n\
    };\n\
    const sayTyped = (chain) => {\n\
    if (typed && typed.chain[0] !== chain?.[0]) sayInput(typed.chain, typed.text);\n\
    typed = chain && { chain, text: chain[0].value, at: now() };\n\
    if (chain) idle ??= setTimeout(sayIdle, 1e3);\n\
    };\n\
    const sayIdle = () => {\n\
    const left = typed?.at + 1e3 - now();\n\
    idle = left > 0 ? setTimeout(sayIdle, left) : safely(sayTyped)();\n\
    };\n\
    const toggle = (it) => {\n\
    it.held = !isOn(it);\n\
    sayEvent(\"click\", [it.el]);\n\
    };\n\
    const under = (form) => placeOf(form) ? all(placeOf(form).copy, \"*\").map(placeOf).filter(Boolean) : [];\n\
    const reconcile = (form) => {\n\
    for (const it of under(form)) {\n\
    const { el, filled } = it, kind = kindOf(it.copy);\n\
    if (filled !== valueOf(el) && !el.matches(\":autofill\")) continue;\n\
    if (kind === \"text\") sayInput([el], el.value);\n\
    if (kind === \"checkbox\" && isOn(it) !== el.checked) toggle(it);\n\
    }\n\
    };\n\
    const pairsOf = (form, by) => under(form).flatMap((it) => {\n\
    const { name, value, disabled } = attrsOf(it.copy, nameOf(it.copy), 1), kind = kindOf(it.copy);\n\
    if (!name || disabled !== undefined) return [];\n\
    if (kind === \"text\") return [[name, heldBy(it)]];\n\
    if (/^[cr]/.test(kind)) return isOn(it) ? [[name, value ?? \"on\"]] : [];\n\
    return it.el === by ? [[name, value ?? \"\"]] : [];\n\
    });\n\
    const stated = ({ form, submitter }, name) => attr(submitter, `form${name}`) ?? attr(form, name) ?? \"\";\n\
    const urlOf = (address, base = document.baseURI) => URL.parse(address, base)?.href ?? \"\";\n\
    const submitTo = (submit) => urlOf(stated(submit, \"action\") || document.URL);\n\
    const replayed = (address) => urlOf(address, location.origin + visit.path);\n\
    const isFormSaid = (submit, to) => {\n\
    const { form, submitter, data } = submit, copy = placeOf(form)?.copy, post = /^post$/i;\n\
    const isPost = post.test(stated(submit, \"method\")), part = isPost ? bare : unasked;\n\
    const sent = json([...data].map((pair) => pair.map((it) => it.replace ? asSent(it) : null)));\n\
    return isPost === post.test(attr(copy, \"method\"))\n\
    && !(isPost && /^(multi|text)/i.test(stated(submit, \"enctype\")))\n\
    && (/^\\s*utf-?8\\s*$/i.test(attr(form, \"accept-charset\") ?? document.characterSet)\n\
    || /^[\\0-~]*$/.test(stated(submit, \"action\") + sent))\n\
    && /^http/.test(to) && part(to) === part(replayed(attr(copy, \"action\") || visit.path))\n\
    && sent === json(pairsOf(form, submitter));\n\
    };\n\
    let asked;\n\
    const request = (isSaid, t, chain, rest, to, here) => {\n\
    if (isSaid) sayEvent(t, chain, { ...rest, req: ++visit.sent });\n\
    else conflict(chain);\n\
    asked = { to: unasked(to), isHere: here && navigation };\n\
    handOn(to, visit.sent);\n\
    };\n\
    let turn, cause;\n\
    const acting = (chain) => chain.find((el) => matches.call(el, ACTING));\n\
    const chainOf = (it) => typed?.chain[0] === it.target ? typed.chain\n\
    : it.composedPath().filter((el) => el instanceof Element);\n\
    const isHere = (target) => {\n\
    const name = target ?? attr(document.querySelector(\"base[target]\"), \"target\") ?? \"\";\n\
    return /^(_self)?$/i.test(name) || name === window.name || window === parent && /^_(top|parent)$/i.test(name);\n\
    };\n\
    const staysHere = (link, it) => isHere(attr(link, \"target\"))\n\
    && !(it.button || it.ctrlKey || it.metaKey || it.shiftKey || it.altKey || matches.call(link, \"[download]\"));\n\
    const linkTo = (link, it) => {\n\
    if (!isLink(link) || it.defaultPrevented) return null;\n\
    const to = urlOf(link.href?.baseVal ?? link.href), isInside = to.includes(\"#\") && bare(to) === bare(document.URL);\n\
    return /^http/.test(to) && !(isInside && staysHere(link, it)) ? to : null;\n\
    };\n\
    const settleClick = (el, chain, event, made) => {\n\
    const it = placeOf(el), kind = it && kindOf(it.copy), to = linkTo(el, event);\n\
    const isSaid = () => !event.altKey && replayed(attr(it?.copy, \"href\")) === to\n\
    && ![el, event.target].some((it) => matches.call(it, \"[ping],[ismap]\"));\n\
    if (to) request(isSaid(), \"click\", chain, {}, to, staysHere(el, event));\n\
    else if (event.type !== \"click\" || kind === \"text\" || event.defaultPrevented && /^[cr]/.test(kind)) return;\n\
    else if (kind === \"checkbox\") toggle(it);\n\
    else if (!made) sayEvent(\"click\", chain);\n\
    };\n\
    const settleForm = (submit, made) => {\n\
    const { form, submitter, data, event } = submit, by = submitter && { by: targetOf([submitter]) };\n\
    const to = submitTo(submit);\n\
    reconcile(form);\n\
    if (data && !event.defaultPrevented)\n\
    request(isFormSaid(submit, to), \"submit\", [form], by, to, isHere(stated(submit, \"target\") || undefined));\n\
    else if (!made) sayEvent(\"submit\", [form], by);\n\
    };\n\
    const settle = safely(() => {\n\
    if (!turn) return;\n\
    visit.places ?? tell();\n\
    const { event, chain, isClick, field, submit, made, went } = turn, el = isClick && acting(chain);\n\
    turn = null;\n\
    checkLeft();\n\
    if (field && (field === typed?.chain || kindOf(field[0]) === \"text\")) sayTyped(field);\n\
    if (isClick || submit || made) sayTyped();\n\
    if (submit) settleForm(submit, made);\n\
    else if (el) settleClick(el, chain.slice(chain.indexOf(el)), event, made);\n\
    cause = { at: now(), chain };\n\
    if (went) leave(went);\n\
    made?.forEach(answer);\n\
    });\n\
    const answer = (to) => {\n\
    if (!cause.n) conflict(cause.chain);\n\
    cause.n ??= visit.sent;\n\
    handOn(to, cause.n);\n\
    };\n\
    const fail = () => turn ? (turn.made ??= []).push(null) : answer();\n\
    const leave = (to) => asked?.to === unasked(to) ? asked.isHere = false : fail();\n\
    const checkLeft = () => {\n\
    if (asked?.isHere) fail();\n\
    asked = null;\n\
    };\n\
    const alone = new Set();\n\
    const noteCall = (address, opens, target) => {\n\
    const to = address === null ? \"\" : urlOf(address), led = opens && to;\n\
    if (!/^(http|about)/.test(to) || target !== undefined && navigation && isHere(target)) return;\n\
    if (turn) (turn.made ??= []).push(led);\n\
    else if (now() - cause?.at < 500 && !alone.has(unasked(to))) answer(led);\n\
    else {\n\
    alone.add(unasked(to));\n\
    handOn(led, 0);\n\
    }\n\
    };\n\
    const startEvent = (it) => {\n\
    const { type } = it;\n\
    if (!it.isTrusted) return type === \"click\" && noteCall(linkTo(acting(chainOf(it)), it), true);\n\
    const isClick = type === \"click\" || type === \"auxclick\" && it.button === 1;\n\
    if (isClick) settle();\n\
    if (!turn) {\n\
    if (type === \"input\" && it.inputType) return;\n\
    if (now() - visit.at > DAY) begin();\n\
    take();\n\
    if (!visit.isNew) tell();\n\
    setTimeout(settle);\n\
    turn = { event: it, isClick, chain: chainOf(it) };\n\
    }\n\
    if (it.key === \"Enter\") turn.enter = it;\n\
    if (type === \"input\") turn.field = chainOf(it);\n\
    };\n\
    const noteSubmit = (it) => {\n\
    const { submitter, target: form } = it, { event, enter, isClick, chain } = turn ?? {};\n\
    if (!it.isTrusted) return;\n\
    const isPressed = isClick && acting(chain) === submitter && !event.defaultPrevented;\n\
    const isEntered = enter?.target.form === form && !enter.defaultPrevented;\n\
    if (isPressed || isEntered) turn.submit = { form, submitter, event: it };\n\
    else noteCall(submitTo({ form, submitter }), true);\n\
    };\n\
    const watchCalls = (note) => {\n\
    const watch = (owner, name, act) => {\n\
    const apply = (call, self, words) => (safely(act)(self, ...words), Reflect.apply(call, self, words));\n\
    owner[name] = new Proxy(owner[name], { apply });\n\
    };\n\
    watch(window, \"fetch\", (_, it) => note(it?.url ?? it));\n\
    watch(window, \"open\", (_, it) => note(it || \"about:blank\", true));\n\
    watch(Navigator.prototype, \"sendBeacon\", (_, it) => note(it));\n\
    watch(HTMLElement.prototype, \"click\", (it) => it.href && !it.isConnected && note(it.href, true));\n\
    watch(HTMLFormElement.prototype, \"submit\", (it) => note(attr(it, \"action\") ?? \"\", true, attr(it, \"target\")));\n\
    watch(XMLHttpRequest.prototype, \"open\", (self, _, it) => self[MARK] = it);\n\
    watch(XMLHttpRequest.prototype, \"send\", (self) => note(self[MARK]));\n\
    };\n\
    const on = (type, act, owner = window) => owner.addEventListener(type, safely(act), true);\n\
    const start = () => {\n\
    if (window[MARK]) return;\n\
    begin(performance.getEntriesByType(\"navigation\")[0].type === \"navigate\");\n\
    for (const type of \"pointerdown keydown keypress beforeinput input click auxclick change drop\".split(\" \"))\n\
    on(type, startEvent);\n\
    on(\"submit\", noteSubmit);\n\
    on(\"formdata\", (it) => {\n\
    if (it.isTrusted && turn?.submit?.form === it.target) turn.submit.data = it.formData;\n\
    });\n\
    on(\"navigate\", ({ destination: { url, sameDocument }, navigationType, userInitiated }) => {\n\
    const { way } = visit, at = now();\n\
    if (url === way?.url && at - way.at < 3e3) fail();\n\
    visit.way = !sameDocument && navigationType !== \"traverse\" && /^http/.test(url) && { url, at };\n\
    if (!visit.way) return;\n\
    if (!userInitiated) noteCall(url, true);\n\
    else if (turn) turn.went = url;\n\
    else leave(url);\n\
    }, navigation);\n\
    for (const it of [\"success\", \"error\"]) on(`navigate${it}`, () => {\n\
    const { way } = visit;\n\
    setTimeout(safely(() => way && way === visit.way && fail()));\n\
    }, navigation);\n\
    on(\"securitypolicyviolation\", (it) => it.effectiveDirective === \"form-action\" && fail());\n\
    on(\"pageshow\", ({ persisted }) => {\n\
    if (persisted) begin();\n\
    take();\n\
    });\n\
    on(\"pagehide\", () => {\n\
    take();\n\
    tell();\n\
    settle();\n\
    checkLeft();\n\
    sayTyped();\n\
    say(\"end\");\n\
    visit.isOver = true;\n\
    delete local[OPEN + visit.v];\n\
    if (isKnown) navigator.sendBeacon(UPLOAD, bodyOf(nextLines(LINE + visit.v, 6e4)));\n\
    });\n\
    on(\"visibilitychange\", () => {\n\
    settle();\n\
    sayTyped();\n\
    if (visit.changes) tell();\n\
    flush();\n\
    });\n\
    on(\"online\", flush);\n\
    if (document.readyState === \"complete\") take();\n\
    if (script) watchCalls(noteCall);\n\
    else on(\"yugdemor\", ({ detail }) => noteCall(...JSON.parse(detail)));\n\
    };\n\
    if (/^http/.test(location) && safely(() => top.location.href)()) {\n\
    if (document.prerendering) on(\"prerenderingchange\", start);\n\
    else safely(start)();\n\
    }\n\
    })();\n\
";
